// WRITE and SIZE, opcodes beside those of the run protocol (docs/ORACLE.md): the list's record, written into an output, and its length.
use super::list::List;
use compare_lent::Tables;
use compare_lines::{Buffer, Fault, Fields, Line};

// Of an output the w bytes that were written, and the checksum of all.
pub fn write(
    list: &List,
    tables: &Tables,
    room: &mut Buffer<60000>,
    mut fields: Fields,
    line: &mut Line,
) -> Result<(), Fault> {
    let n = fields.u32()? as usize;
    fields.end()?;
    if 60000 < n {
        return Err(Fault::LongOutput);
    }
    room.hold(n, 0x5a);
    let done = tables.flush_to_file(list.list, &list.words, &list.bytes, room.bytes_mut());
    let out = room.bytes();
    let w = out.len().min(done.unwrap_or(0));
    line.begin_with(done);
    line.put(w as u64, 4);
    line.put(w as u64, 4);
    line.put_bytes(&out[..w]);
    line.put(u64::from(checksum::checksum(out)), 4);
    Ok(())
}

pub fn size(list: &List, tables: &Tables, fields: Fields, line: &mut Line) -> Result<(), Fault> {
    fields.end()?;
    let done = tables.record_size(list.list, &list.words, &list.bytes);
    line.begin_with(done);
    line.put(done.unwrap_or(0) as u64, 4);
    Ok(())
}
