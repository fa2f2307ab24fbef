// What stands inside a record, from a position on: the tag, and what the tag says is behind it.
ghost use Rattle.std.specs.Prelude.{◌≡◌, ◌+◌, ◌≤◌, length};
ghost use Rattle.record.specs.Format.{read_at};
ghost use Rattle.record.specs.Inner.{got_by, got_item, inserted_item};
ghost use Rattle.record.specs.Record.{key, chunk, value, table, sum_holds, ended_item, inside};

use super::action::LogAction;
use super::mask::entries_length;
use answer::{Answer, Tag};
use directory::{Directory, IndexTableId, RefCountTableId, TableDescription, TableKind};

// A table's number and an index, both tested, with the table's description.
#[derive(Clone, Copy)]
pub struct Key {
    pub table: u16,
    pub index: u64,
    pub description: TableDescription,
}

// An action that was read, and its payload's place; it ends where its payload ends.
#[derive(Clone, Copy)]
pub struct ReadItem {
    pub action: LogAction,
    pub start: usize,
    pub length: usize,
}

impl ReadItem {
    // An action without a payload, up to its end.
    fn bare(action: LogAction, end: usize) -> ReadItem
        ensures { result ≡ record { action = action; start = end; length = 0 } }
    {
        ReadItem {
            action,
            start: end,
            length: 0,
        }
    }
}

// Table and index, behind the tag of an insertion.
#[tactic(auto, unfolding(crate::specs::Format::read_at, crate::specs::Record::key))]
fn key_at(directory: &Directory, log: &[u8], body: usize, kind: TableKind) -> Result<Key, Answer>
    requires { body ≤ length log.now }
    ensures { got_by result (body + 10) ≡ read_at (key directory.now kind) body log.now }
{
    if log.len() - body < 10 {
        return Err(Answer::Cut);
    }
    let table = words::u16_at(log, body);
    let index = words::u64_at(log, body + 2);
    let Some((_, description)) = directory.find(kind, table) else {
        return Err(Answer::NoTable);
    };
    if index < u64::from(description.count) {
        Ok(Key {
            table,
            index,
            description,
        })
    } else {
        Err(Answer::NoIndex)
    }
}

// The mask and its entries, behind a key.
#[tactic(auto, unfolding(crate::specs::Format::read_at, crate::specs::Record::chunk))]
fn chunk_at(
    log: &[u8],
    start: usize,
    kind: TableKind,
    width: usize,
    k: Key,
) -> Result<ReadItem, Answer>
    requires { (width ≤ 16) × (start ≤ length log.now) }
    ensures { got_item result ≡ read_at (chunk kind width k) start log.now }
{
    if log.len() - start < 8 {
        return Err(Answer::Cut);
    }
    let mask = words::u64_at(log, start);
    let entries = entries_length(mask, width);
    if log.len() - (start + 8) < entries {
        return Err(Answer::Cut);
    }
    Ok(ReadItem {
        action: LogAction::insert(kind, k.table, k.index),
        start,
        length: 8 + entries,
    })
}

// The value, behind a key. A record has as many bytes for a value as its table says.
#[tactic(auto, unfolding(crate::specs::Format::read_at, crate::specs::Record::value))]
fn value_at(log: &[u8], start: usize, k: Key) -> Result<ReadItem, Answer>
    requires { start ≤ length log.now }
    ensures { got_item result ≡ read_at (value k) start log.now }
{
    let length = usize::from(k.description.length);
    if log.len() - start < length {
        return Err(Answer::Cut);
    }
    Ok(ReadItem {
        action: LogAction::insert(TableKind::Value, k.table, k.index),
        start,
        length,
    })
}

// Tags 2, 3 and 6: a key, and the payload behind it.
fn inserted_at(
    directory: &Directory,
    log: &[u8],
    body: usize,
    kind: TableKind,
) -> Result<ReadItem, Answer>
    requires { body ≤ length log.now }
    ensures { got_item result ≡ read_at (inserted_item directory.now kind) body log.now }
{
    let k = key_at(directory, log, body, kind)?;
    let start = body + 10;
    match kind {
        TableKind::Index => chunk_at(log, start, kind, 8, k),
        TableKind::Value => value_at(log, start, k),
        TableKind::RefCount => chunk_at(log, start, kind, 16, k),
    }
}

// Whether the checksum over all up to the end tag is that number, or nobody asks.
#[tactic(auto, unfolding(crate::specs::Record::sum_holds))]
fn sum_holds(validate: bool, register: u32, sum: u32) -> bool
    ensures { result ≡ sum_holds validate register sum }
{
    !validate || sum == checksum::finish(checksum::update(register, &[Tag::END_RECORD.0]))
}

// Tag 4.
#[tactic(auto, unfolding(crate::specs::Format::read_at, crate::specs::Record::ended_item))]
fn ended_at(log: &[u8], body: usize, validate: bool, register: u32) -> Result<ReadItem, Answer>
    requires { body ≤ length log.now }
    ensures { got_item result ≡ read_at (ended_item validate register) body log.now }
{
    if log.len() - body < 4 {
        return Err(Answer::Cut);
    }
    if sum_holds(validate, register, words::u32_at(log, body)) {
        Ok(ReadItem::bare(LogAction::EndRecord, body + 4))
    } else {
        Err(Answer::WrongSum)
    }
}

// A table's number, behind the tag of a drop.
#[tactic(auto, unfolding(crate::specs::Format::read_at, crate::specs::Record::table))]
fn table_at(directory: &Directory, log: &[u8], body: usize, kind: TableKind) -> Result<u16, Answer>
    requires { body ≤ length log.now }
    ensures { got_by result (body + 2) ≡ read_at (table directory.now kind) body log.now }
{
    if log.len() - body < 2 {
        return Err(Answer::Cut);
    }
    let number = words::u16_at(log, body);
    match directory.find(kind, number) {
        None => Err(Answer::NoTable),
        Some(_) => Ok(number),
    }
}

// The decision on the tag, inside a record.
#[tactic(auto, unfolding(crate::specs::Format::read_at, crate::specs::Record::inside, crate::specs::Record::inside_by, crate::specs::Record::dropped_item))]
pub fn item_at(
    directory: &Directory,
    log: &[u8],
    at: usize,
    validate: bool,
    register: u32,
) -> Result<ReadItem, Answer>
    requires { at ≤ length log.now }
    ensures { got_item result ≡ read_at (inside directory.now validate register) at log.now }
{
    let Some(&tag) = log.get(at) else {
        return Err(Answer::Cut);
    };
    let body = at + 1;
    match tag {
        1 => Err(Answer::OutOfPlace),
        2 => inserted_at(directory, log, body, TableKind::Index),
        3 => inserted_at(directory, log, body, TableKind::Value),
        4 => ended_at(log, body, validate, register),
        5 => {
            let number = table_at(directory, log, body, TableKind::Index)?;
            Ok(ReadItem::bare(LogAction::DropTable(IndexTableId(number)), body + 2))
        }
        6 => inserted_at(directory, log, body, TableKind::RefCount),
        7 => {
            let number = table_at(directory, log, body, TableKind::RefCount)?;
            Ok(ReadItem::bare(
                LogAction::DropRefCountTable(RefCountTableId(number)),
                body + 2,
            ))
        }
        0 | 8..=255 => Err(Answer::UnknownTag),
    }
}
