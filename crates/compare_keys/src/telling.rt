// What is kept, with checksums for the bytes.
ghost use Rattle.std.specs.Prelude.{◌+◌, ◌*◌, ◌≤◌, ◌<◌, length};
ghost use Rattle.memory.specs.Parts.{words_all, bytes_all};

use super::part::{part_of, slot_of};
use compare_lines::Line;
use directory::TableKind;
use memory::{Counts, Holder};

// Of a value that is longer than its slot, the slot.
fn sum_of(bytes: &[u8], kind: TableKind, p: usize, mark: u64) -> u32
    requires { p < 256 }
{
    let (start, end) = slot_of(kind, p, mark.min(512) as u16, bytes.len());
    checksum::checksum(&bytes[start..end])
}

// The key in place p, in 30 bytes, or 22 without its id: all keys of a list have the list's. A value has no mask.
fn put_key(line: &mut Line, holder: Holder, kind: TableKind, words: &[u64], bytes: &[u8], p: usize)
    requires { (line.old.held + 30 ≤ 81920) × (p < 256) × (4 * p + 4 ≤ length words.now) }
    ensures { line.new.held ≤ line.old.held + 30 }
{
    let row = &words[4 * p..];
    let mark = row[3];
    line.put(row[0], 2);
    line.put(row[1], 8);
    match holder {
        Holder::Shared => line.put(row[2], 8),
        Holder::List => {}
    }
    match kind {
        TableKind::Value => line.put(0, 8),
        TableKind::Index | TableKind::RefCount => line.put(mark, 8),
    }
    line.put(u64::from(sum_of(bytes, kind, p, mark)), 4);
}

// The keys of a kind's part, as the order has them, behind their count.
fn put_part(
    line: &mut Line,
    holder: Holder,
    kind: TableKind,
    room: usize,
    words: &[u64],
    bytes: &[u8],
    count: usize,
)
    requires { (line.old.held + 7682 ≤ 81920) × (1 ≤ room) × (room ≤ 256) × (5 * room ≤ length words.now) }
    ensures { line.new.held ≤ line.old.held + 7682 }
{
    let n = count.min(room);
    let order = &words[4 * room..];
    line.put(n as u64, 2);
    for place in &order[..n] {
        let p = (room - 1).min(*place as usize);
        put_key(line, holder, kind, words, bytes, p);
    }
}

fn put_kind(
    line: &mut Line,
    holder: Holder,
    kind: TableKind,
    counts: Counts,
    words: &[u64],
    bytes: &[u8],
)
    requires { (line.old.held + 7682 ≤ 81920) × (words_all holder ≤ length words.now) × (bytes_all holder ≤ length bytes.now) }
    ensures { line.new.held ≤ line.old.held + 7682 }
{
    let s = part_of(holder, kind);
    put_part(
        line,
        holder,
        kind,
        s.room,
        &words[s.words_at..s.words_end],
        &bytes[s.bytes_at..s.bytes_end],
        counts.of(kind),
    );
}

// All keys, kind by kind.
pub fn put_keys(line: &mut Line, holder: Holder, counts: Counts, words: &[u64], bytes: &[u8])
    requires { (line.old.held ≤ 8) × (words_all holder ≤ length words.now) × (bytes_all holder ≤ length bytes.now) }
    ensures { line.new.held ≤ 23054 }
{
    put_kind(line, holder, TableKind::Index, counts, words, bytes);
    put_kind(line, holder, TableKind::Value, counts, words, bytes);
    put_kind(line, holder, TableKind::RefCount, counts, words, bytes);
}
