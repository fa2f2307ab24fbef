// FORGE_LIST and FORGE_DROP: lists that no call makes.
use super::list::List;
use answer::Answer;
use change::Drops;
use compare_keys::{Forged, append};
use compare_lines::{Fault, Fields, Line, known_kind};
use directory::TableKind;
use memory::Holder;

pub fn forge_entry(list: &mut List, fields: Fields, line: &mut Line) -> Result<(), Fault> {
    let key = Forged::of(fields, Some(list.list.record_id))?;
    let counts = list.list.counts;
    list.list.counts = append(Holder::List, counts, &mut list.words, &mut list.bytes, key);
    line.begin(Answer::Done);
    Ok(())
}

// Where the room is full, only the count rises.
fn push(drops: &mut Drops, number: u16) {
    let n = drops.count.min(16);
    if n < 16 {
        drops.tables[n] = number;
    }
    drops.count = n + 1;
}

// Kind 1, of which no table is dropped, counts as kind 0.
pub fn forge_drop(list: &mut List, mut fields: Fields, line: &mut Line) -> Result<(), Fault> {
    let kind = fields.u8()?;
    let number = fields.u16()?;
    fields.end()?;
    match known_kind(kind)? {
        TableKind::RefCount => push(&mut list.list.dropped_ref_count_tables, number),
        TableKind::Index | TableKind::Value => push(&mut list.list.dropped_tables, number),
    }
    line.begin(Answer::Done);
    Ok(())
}
