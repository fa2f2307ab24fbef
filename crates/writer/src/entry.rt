// An entry of a record: one path for the three kinds. log.rs lines 394 to 432.
ghost use Rattle.std.specs.Prelude.{◌≡◌, [], ◌+◌, ◌≤◌, length};
ghost use Rattle.directory.specs.Table.{unit_of};
ghost use Rattle.overlay.specs.Rules.{lists_of};
ghost use Rattle.output.specs.Put.{Wrote};
ghost use Rattle.writer.specs.Bytes.{insert_tag, payload_of, entry_bytes, entry_bytes_at};
ghost use Rattle.writer.specs.Inner.{Writable};

use super::slots::put_masked;
use answer::Tag;
use directory::TableKind;

fn insert_tag(kind: TableKind) -> Tag
    ensures { result.0 ≡ insert_tag kind }
{
    match kind {
        TableKind::Index => Tag::INSERT_INDEX,
        TableKind::Value => Tag::INSERT_VALUE,
        TableKind::RefCount => Tag::INSERT_REF_COUNT,
    }
}

fn put_payload(out: &mut [u8], at: usize, kind: TableKind, mark: u64, bytes: &[u8]) -> usize
    requires { (unit_of kind mark ≤ length bytes.now) × (at + length (payload_of kind mark bytes.now) ≤ length out.old) }
    ensures { Wrote out.old at (payload_of kind mark bytes.now) out.new result }
{
    match kind {
        TableKind::Index => put_masked(out, at, 8, mark, bytes),
        TableKind::Value => {
            let n = mark as usize;
            output::copy_into(out, at, &bytes[..n])
        }
        TableKind::RefCount => put_masked(out, at, 16, mark, bytes),
    }
}

fn put_entry(
    out: &mut [u8],
    at: usize,
    kind: TableKind,
    table: u16,
    index: u64,
    mark: u64,
    bytes: &[u8],
) -> usize
    requires { (unit_of kind mark ≤ length bytes.now) × (at + length (entry_bytes kind table index mark bytes.now) ≤ length out.old) }
    ensures { Wrote out.old at (entry_bytes kind table index mark bytes.now) out.new result }
{
    let a = output::put_u8(out, at, insert_tag(kind).0);
    let b = output::put_u16(out, a, table);
    let c = output::put_u64(out, b, index);
    put_payload(out, c, kind, mark, bytes)
}

// The key in place p.
pub(crate) fn put_key(
    out: &mut [u8],
    at: usize,
    kind: TableKind,
    rows: &[u64],
    p: usize,
    bytes: &[u8],
) -> usize
    requires { Writable kind rows.now bytes.now p × (at + length (entry_bytes_at kind (lists_of rows.now [] bytes.now 0) p) ≤ length out.old) }
    ensures { Wrote out.old at (entry_bytes_at kind (lists_of rows.now [] bytes.now 0) p) out.new result }
{
    let s = overlay::slot_size(kind) * p;
    let table = rows[4 * p] as u16;
    let index = rows[4 * p + 1];
    let mark = rows[4 * p + 3];
    put_entry(out, at, kind, table, index, mark, &bytes[s..])
}
