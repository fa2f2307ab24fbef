// The entries of one kind of a list, put over the shared ones: log.rs lines 874, 880 and 885.
ghost use Rattle.std.specs.Prelude.{◌≡◌, ◌+◌, ◌*◌, ◌<◌, ◌≤◌, length, get_or};
ghost use Rattle.overlay.specs.Rules.{overlay_of};
ghost use Rattle.memory.specs.declared.span.Holder.TheVariants.{Shared};
ghost use Rattle.putting.specs.Inner.{parts_at, row_at, place_put, list_put, RowGoes, KindGoes};

use directory::TableKind;
use memory::{Counts, Holder};
use overlay::NewEntry;

// What the list says of a place.
#[derive(Clone, Copy)]
pub struct ListedRow {
    pub table: u16,
    pub index: u64,
    pub mark: u64,
}

fn row_at(listed: &[u64], p: usize) -> ListedRow
    requires { (4 * p + 4 ≤ length listed.now) × (get_or listed.now (4 * p) 0 < 65536) }
    ensures { result ≡ row_at listed.now p }
{
    ListedRow {
        table: listed[4 * p] as u16,
        index: listed[4 * p + 1],
        mark: listed[4 * p + 3],
    }
}

// The entry of that row, whose bytes are in place p, into the memories of any holder.
fn put_place(
    holder: Holder,
    kind: TableKind,
    counts: Counts,
    words: &mut [u64],
    bytes: &mut [u8],
    id: u64,
    row: ListedRow,
    stored: &[u8],
    p: usize,
) -> Counts
    requires { RowGoes holder kind row stored.now p (parts_at holder counts words.old bytes.old) }
    ensures { parts_at holder result words.new bytes.new
        ≡ place_put kind id row stored.now p (parts_at holder counts words.old bytes.old) }
{
    let from = overlay::slot_size(kind) * p;
    let to = from + overlay::stored_length(kind, row.mark);
    memory::put_in(
        holder,
        kind,
        counts,
        words,
        bytes,
        NewEntry {
            table: row.table,
            index: row.index,
            id,
            mark: row.mark,
            bytes: &stored[from..to],
        },
    )
}

// The n entries of the list's part, as their order has them.
pub(crate) fn put_listed<'a>(
    kind: TableKind,
    counts: Counts,
    words: &mut [u64],
    bytes: &mut [u8],
    id: u64,
    room: usize,
    listed: &'a [u64],
    stored: &'a [u8],
    n: usize,
) -> Counts
    requires { KindGoes kind room (overlay_of room listed.now stored.now n) (parts_at Shared counts words.old bytes.old) }
    ensures { parts_at Shared result words.new bytes.new
        ≡ list_put kind id (overlay_of room listed.now stored.now n) (parts_at Shared counts words.old bytes.old) }
{
    let cut = 4 * room;
    let mut m = counts;
    for i in 0..n {
        let p = listed[cut + i] as usize;
        let row = row_at(listed, p);
        m = put_place(Holder::Shared, kind, m, words, bytes, id, row, stored, p);
    }
    m
}
