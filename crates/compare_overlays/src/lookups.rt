// LOOKUP and VALUE_INTO: the bytes stored for a key, and a value copied to a destination.
use super::overlays::Overlays;
use answer::Answer;
use compare_lines::{Buffer, Fault, Fields, Line, known_kind};
use compare_lists::List;
use directory::{IndexTableId, RefCountTableId, TableKind, ValueTableId};
use memory::Holder;
use query::{Listed, Lookup, Shared};

// The list, and behind it the kind's part of the shared memories.
fn lent<'a>(list: &'a List, overlays: &'a Overlays, kind: TableKind) -> Listed<'a> {
    let shared = Shared {
        overlays: overlays.overlays,
        words: Holder::Shared.words(kind, &overlays.words),
        bytes: Holder::Shared.bytes(kind, &overlays.bytes),
    };
    Listed {
        list: list.list,
        words: &list.words,
        bytes: &list.bytes,
        shared,
    }
}

fn look<L: Lookup>(within: &L, kind: TableKind, table: u16, index: u64) -> Result<L::Part, Answer> {
    match kind {
        TableKind::Index => within.with_index(IndexTableId::from_u16(table), index),
        TableKind::Value => within.value_ref(ValueTableId::from_u16(table), index),
        TableKind::RefCount => within.ref_count(RefCountTableId::from_u16(table), index),
    }
}

// No key has more than 1,024 bytes.
fn put_stored(line: &mut Line, outcome: Result<&[u8], Answer>) {
    line.begin_with(outcome);
    let stored = outcome.unwrap_or(b"");
    let n = stored.len().min(1024);
    line.put_flag(0 < n);
    line.put(n as u64, 4);
    line.put_bytes(&stored[..n]);
}

pub fn lookup(
    list: &List,
    overlays: &Overlays,
    mut fields: Fields,
    line: &mut Line,
) -> Result<(), Fault> {
    let kind = fields.u8()?;
    let with_list = fields.flag()?;
    let table = fields.u16()?;
    let index = fields.u64()?;
    fields.end()?;
    let kind = known_kind(kind)?;
    let listed = lent(list, overlays, kind);
    if with_list {
        put_stored(line, look(&listed, kind, table, index));
    } else {
        put_stored(line, look(&listed.shared, kind, table, index));
    }
    Ok(())
}

pub fn value_into(
    list: &List,
    overlays: &Overlays,
    room: &mut Buffer<60000>,
    mut fields: Fields,
    line: &mut Line,
) -> Result<(), Fault> {
    let with_list = fields.flag()?;
    let table = ValueTableId::from_u16(fields.u16()?);
    let index = fields.u64()?;
    let n = fields.u32()? as usize;
    fields.end()?;
    if 60000 < n {
        return Err(Fault::LongOutput);
    }
    room.hold(n, 0x5a);
    let listed = lent(list, overlays, TableKind::Value);
    let found = if with_list {
        listed.value(table, index, room.bytes_mut())
    } else {
        listed.shared.value(table, index, room.bytes_mut())
    };
    line.begin_with(found);
    line.put_flag(found.unwrap_or(false));
    line.put(room.bytes().len() as u64, 4);
    line.put_bytes(room.bytes());
    Ok(())
}
