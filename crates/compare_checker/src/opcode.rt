// One command, by its opcode.
use checker::{Checked, LogChecker};
use compare_lines::{Fault, Fields, Line, refused_at};
use compare_reading::Reading;

fn keep(checker: &mut LogChecker, reading: &mut Reading, told: Checked, line: &mut Line) {
    *checker = told.checker;
    reading.place = refused_at(told.answer, told.fault_at);
    line.begin(told.answer);
}

fn start(
    checker: &mut LogChecker,
    reading: &mut Reading,
    mut fields: Fields,
    line: &mut Line,
) -> Result<(), Fault> {
    let first = fields.u64()?;
    fields.end()?;
    let told = LogChecker::new(reading.tables.directory(), first);
    keep(checker, reading, told, line);
    Ok(())
}

fn piece(
    checker: &mut LogChecker,
    reading: &mut Reading,
    fields: Fields,
    line: &mut Line,
) -> Result<(), Fault> {
    let told = checker.piece(fields.last_blob()?);
    keep(checker, reading, told, line);
    Ok(())
}

fn close(
    checker: &mut LogChecker,
    reading: &mut Reading,
    fields: Fields,
    line: &mut Line,
) -> Result<(), Fault> {
    fields.end()?;
    let closed = checker.close();
    *checker = closed.checker;
    let ran = closed.ran;
    reading.place = refused_at(ran.answer, ran.fault_at);
    line.begin(ran.answer);
    line.put(ran.position as u64, 8);
    line.put(ran.count, 8);
    Ok(())
}

pub fn serve(
    checker: &mut LogChecker,
    reading: &mut Reading,
    opcode: u8,
    fields: Fields,
    line: &mut Line,
) -> Result<(), Fault> {
    match opcode {
        0x36 => start(checker, reading, fields, line),
        0x37 => piece(checker, reading, fields, line),
        0x38 => close(checker, reading, fields, line),
        _ => {
            line.unknown();
            Ok(())
        }
    }
}
