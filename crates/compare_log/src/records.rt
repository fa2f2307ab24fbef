// BEGIN and CLEAR: a record begun, and one read again and cleared.
use super::life::Life;
use answer::Answer;
use compare_lines::{Fault, Fields, Line, refused_at};
use compare_reading::Reading;

// A refusal leaves the list.
pub fn begin(life: &mut Life, fields: Fields, line: &mut Line) -> Result<(), Fault> {
    fields.end()?;
    match log_calls::begin_record(life.next_record_id) {
        Ok(begun) => {
            life.list.list = begun.list;
            life.next_record_id = begun.next_record_id;
            line.begin(Answer::Done);
            line.put(begun.list.record_id, 8);
        }
        Err(answer) => line.begin(answer),
    }
    Ok(())
}

pub fn clear(
    life: &mut Life,
    reading: &mut Reading,
    mut fields: Fields,
    line: &mut Line,
) -> Result<(), Fault> {
    let position = fields.u64()? as usize;
    fields.end()?;
    let done = reading.tables.end_read(
        reading.log.bytes(),
        position,
        life.overlays.overlays,
        &mut life.overlays.words,
        &mut life.overlays.bytes,
        life.next_record_id,
    );
    match done {
        Ok(cleared) => {
            life.overlays.overlays = cleared.overlays;
            life.next_record_id = cleared.next_record_id;
            reading.place = None;
            line.begin(Answer::Done);
            line.put(cleared.position as u64, 8);
            line.put(cleared.record_id, 8);
        }
        Err(refusal) => {
            reading.place = refused_at(refusal.answer, refusal.position);
            line.begin(refusal.answer);
            line.put(position as u64, 8);
            line.put(0, 8);
        }
    }
    Ok(())
}
