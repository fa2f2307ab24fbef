// IMAGE, REPLAY, RUN, WHERE and IMAGE_SUM: the tables' image, and records replayed onto it.
use super::state::Reading;
use answer::Answer;
use compare_lines::{Fault, Fields, Line, refused_at};

pub fn keep_image(reading: &mut Reading, mut fields: Fields, line: &mut Line) -> Result<(), Fault> {
    let n = fields.u32()? as usize;
    let byte = fields.u8()?;
    fields.end()?;
    if 300000 < n {
        return Err(Fault::LongImage);
    }
    reading.image.hold(n, byte);
    line.begin(Answer::Done);
    Ok(())
}

// One record.
pub fn replay(reading: &mut Reading, mut fields: Fields, line: &mut Line) -> Result<(), Fault> {
    let position = fields.u64()? as usize;
    let expected = fields.u64()?;
    fields.end()?;
    let log = reading.log.bytes();
    let image = reading.image.bytes_mut();
    let done = reading.tables.replay(log, position, expected, image);
    line.begin_with(done.map_err(|refusal| refusal.answer));
    line.put(done.unwrap_or(position) as u64, 8);
    reading.place = match done {
        Ok(_) => None,
        Err(refusal) => refused_at(refusal.answer, refusal.position),
    };
    Ok(())
}

// All that follow.
pub fn run(reading: &mut Reading, mut fields: Fields, line: &mut Line) -> Result<(), Fault> {
    let position = fields.u64()? as usize;
    let expected = fields.u64()?;
    fields.end()?;
    let log = reading.log.bytes();
    let image = reading.image.bytes_mut();
    let ran = reading.tables.run(log, position, expected, image);
    line.begin(ran.answer);
    line.put(ran.position as u64, 8);
    line.put(ran.count, 8);
    reading.place = refused_at(ran.answer, ran.fault_at);
    Ok(())
}

// Where the last of those that read was refused.
pub fn tell_place(place: Option<usize>, fields: Fields, line: &mut Line) -> Result<(), Fault> {
    fields.end()?;
    line.clear();
    line.put_flag(place.is_some());
    line.put(place.unwrap_or(0) as u64, 8);
    Ok(())
}

pub fn image_sum(image: &[u8], fields: Fields, line: &mut Line) -> Result<(), Fault> {
    fields.end()?;
    line.clear();
    line.put(image.len() as u64, 4);
    line.put(u64::from(checksum::checksum(image)), 4);
    Ok(())
}
