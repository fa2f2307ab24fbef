// DIR: the directory. LENT, an opcode beside those of the run protocol (docs/ORACLE.md): the form in which it is handed on.
use super::state::Reading;
use answer::Answer;
use compare_lines::{Fault, Fields, Line, known_kind};
use directory::TableDescription;

// The description of a table, 8 bytes.
fn description(fields: &mut Fields) -> Result<TableDescription, Fault> {
    let kind = known_kind(fields.u8()?)?;
    let number = fields.u16()?;
    let column = fields.u8()?;
    let count = fields.u16()?;
    let length = fields.u16()?;
    Ok(TableDescription::new(kind, number, column, count, length))
}

// Of more than 17 tables the first 17. What stood behind the count stays there.
pub fn keep_directory(
    reading: &mut Reading,
    mut fields: Fields,
    line: &mut Line,
) -> Result<(), Fault> {
    let count = usize::from(fields.u8()?);
    let mut described = Fields::of(fields.bytes(8 * count)?);
    fields.end()?;
    for i in 0..count {
        let table = description(&mut described)?;
        if i < 17 {
            reading.tables.rows[i] = table;
        }
    }
    reading.tables.count = count;
    line.begin(Answer::Done);
    Ok(())
}

pub fn keep_form(reading: &mut Reading, mut fields: Fields, line: &mut Line) -> Result<(), Fault> {
    let lent = fields.flag()?;
    fields.end()?;
    reading.tables.lent = lent;
    line.begin(Answer::Done);
    Ok(())
}
