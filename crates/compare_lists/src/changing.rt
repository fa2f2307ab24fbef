// NEWLIST, INS_INDEX, INS_VALUE, INS_REF, DROP and DROP_REF: the calls on a list.
use super::list::List;
use answer::Answer;
use change::{Changed, LogChange};
use compare_lent::Tables;
use compare_lines::{Fault, Fields, Line};
use directory::{IndexTableId, RefCountTableId, TableKind, ValueTableId};

pub fn new_list(list: &mut List, mut fields: Fields, line: &mut Line) -> Result<(), Fault> {
    let id = fields.u64()?;
    fields.end()?;
    list.list = LogChange::new(id);
    line.begin(Answer::Done);
    Ok(())
}

fn keep(list: &mut List, done: Changed, line: &mut Line) {
    list.list = done.list;
    line.begin(done.answer);
}

fn inserted(
    list: &mut List,
    tables: &Tables,
    kind: TableKind,
    number: u16,
    index: u64,
    slot: u8,
    data: &[u8],
) -> Changed {
    let words = &mut list.words;
    let bytes = &mut list.bytes;
    match kind {
        TableKind::Index => {
            let table = IndexTableId::from_u16(number);
            tables.insert_index(list.list, words, bytes, table, index, slot, data)
        }
        TableKind::Value => {
            let table = ValueTableId::from_u16(number);
            tables.insert_value(list.list, words, bytes, table, index, data)
        }
        TableKind::RefCount => {
            let table = RefCountTableId::from_u16(number);
            tables.insert_ref_count(list.list, words, bytes, table, index, slot, data)
        }
    }
}

// In front of a chunk stands its slot; a value has none.
pub fn insert(
    list: &mut List,
    tables: &Tables,
    kind: TableKind,
    mut fields: Fields,
    line: &mut Line,
) -> Result<(), Fault> {
    let number = fields.u16()?;
    let index = fields.u64()?;
    let slot = match kind {
        TableKind::Index | TableKind::RefCount => fields.u8()?,
        TableKind::Value => 0,
    };
    let data = fields.last_blob()?;
    let done = inserted(list, tables, kind, number, index, slot, data);
    keep(list, done, line);
    Ok(())
}

pub fn drop_table(
    list: &mut List,
    tables: &Tables,
    mut fields: Fields,
    line: &mut Line,
) -> Result<(), Fault> {
    let table = IndexTableId::from_u16(fields.u16()?);
    fields.end()?;
    let done = tables.drop_table(list.list, &list.words, &list.bytes, table);
    keep(list, done, line);
    Ok(())
}

pub fn drop_ref_count_table(
    list: &mut List,
    tables: &Tables,
    mut fields: Fields,
    line: &mut Line,
) -> Result<(), Fault> {
    let table = RefCountTableId::from_u16(fields.u16()?);
    fields.end()?;
    let done = tables.drop_ref_count_table(list.list, &list.words, &list.bytes, table);
    keep(list, done, line);
    Ok(())
}
