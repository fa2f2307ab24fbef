// LOG and CRC: the commands of a blob alone.
use super::state::Reading;
use answer::Answer;
use compare_lines::{Fault, Fields, Line};

pub fn keep_log(reading: &mut Reading, fields: Fields, line: &mut Line) -> Result<(), Fault> {
    reading.log.hold_copy(fields.last_blob()?);
    line.begin(Answer::Done);
    Ok(())
}

pub fn sum(fields: Fields, line: &mut Line) -> Result<(), Fault> {
    let sum = checksum::checksum(fields.last_blob()?);
    line.clear();
    line.put(u64::from(sum), 4);
    Ok(())
}
