// STEP_AT and STEP: the reader.
ghost use Rattle.std.specs.Prelude.{◌≡◌};

use super::state::Reading;
use answer::Answer;
use compare_lines::{Fault, Fields, Line, refused_at};
use record::{LogAction, LogReader, Stepped};

fn table_of(action: LogAction) -> u16 {
    match action {
        LogAction::InsertIndex(a) => a.table.as_u16(),
        LogAction::InsertValue(a) => a.table.as_u16(),
        LogAction::InsertRefCount(a) => a.table.as_u16(),
        LogAction::DropTable(t) => t.as_u16(),
        LogAction::DropRefCountTable(t) => t.as_u16(),
        LogAction::BeginRecord | LogAction::EndRecord => 0,
    }
}

fn index_of(action: LogAction) -> u64 {
    match action {
        LogAction::InsertIndex(a) => a.index,
        LogAction::InsertValue(a) => a.index,
        LogAction::InsertRefCount(a) => a.index,
        _ => 0,
    }
}

// The id, if a record begins.
fn id_of(action: LogAction, reader: LogReader) -> u64 {
    match action {
        LogAction::BeginRecord => reader.record_id(),
        _ => 0,
    }
}

// An action takes 44 bytes. Where there is no payload, its place is 0.
fn put_stepped(line: &mut Line, s: Stepped) {
    line.begin(Answer::Done);
    line.put(u64::from(s.action.tag().0), 1);
    line.put(u64::from(table_of(s.action)), 2);
    line.put(index_of(s.action), 8);
    line.put(id_of(s.action, s.reader), 8);
    line.put(if s.length == 0 { 0 } else { s.start as u64 }, 8);
    line.put(s.length as u64, 8);
    line.put(s.reader.position as u64, 8);
}

// A refusal leaves the reader where it stands.
fn step_from(reading: &mut Reading, reader: LogReader, line: &mut Line) {
    match reading.tables.next(reader, reading.log.bytes()) {
        Err(refusal) => {
            reading.place = refused_at(refusal.answer, refusal.position);
            reading.reader = reader;
            line.begin(refusal.answer);
        }
        Ok(s) => {
            reading.place = None;
            reading.reader = s.reader;
            put_stepped(line, s);
        }
    }
}

pub fn step_at(reading: &mut Reading, mut fields: Fields, line: &mut Line) -> Result<(), Fault> {
    let position = fields.u64()? as usize;
    let validate = fields.flag()?;
    fields.end()?;
    step_from(reading, LogReader::new(position, validate), line);
    Ok(())
}

pub fn step(reading: &mut Reading, mut fields: Fields, line: &mut Line) -> Result<(), Fault> {
    let validate = fields.flag()?;
    fields.end()?;
    let mut reader = reading.reader;
    reader.validate = validate;
    step_from(reading, reader, line);
    Ok(())
}
