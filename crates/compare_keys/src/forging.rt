// A key that no call would put in.
ghost use Rattle.std.specs.Prelude.{◌+◌, ◌*◌, ◌≤◌, ◌<◌, length};
ghost use Rattle.memory.specs.Parts.{words_all, bytes_all};

use super::part::{part_of, slot_of};
use compare_lines::{Fault, Fields, known_kind};
use directory::TableKind;
use keys::{Key, Keys, ascending, row_put};
use memory::{Counts, Holder};

// A row as the command has it, and the byte that fills its slot.
#[derive(Clone, Copy)]
pub struct Forged {
    kind: TableKind,
    key: Key,
    id: u64,
    mark: u64,
    byte: u8,
}

impl Forged {
    // The key that a command has. Its id is among the fields where no other is given.
    pub fn of(mut fields: Fields, id: Option<u64>) -> Result<Forged, Fault> {
        let number = fields.u8()?;
        let table = u64::from(fields.u16()?);
        let index = fields.u64()?;
        let id = match id {
            Some(id) => id,
            None => fields.u64()?,
        };
        let mask = fields.u64()?;
        let byte = fields.u8()?;
        let length = fields.u16()?;
        fields.end()?;
        let kind = known_kind(number)?;
        let mark = match kind {
            TableKind::Value => u64::from(length),
            TableKind::Index | TableKind::RefCount => mask,
        };
        Ok(Forged {
            kind,
            key: Key { table, index },
            id,
            mark,
            byte,
        })
    }
}

// Where the key belongs in the order. An order that is broken stays so wherever one goes.
fn place_in<'a>(rows: &'a [u64], order: &'a [u64], key: Key) -> usize
    requires { 4 * length order.now ≤ length rows.now }
    ensures { result ≤ length order.now }
{
    let n = order.len();
    if ascending(rows, order) {
        n.min(Keys { rows, order }.place(key))
    } else {
        n
    }
}

fn fill_slot(bytes: &mut [u8], p: usize, forged: Forged)
    requires { p < 256 }
{
    let (start, end) = slot_of(forged.kind, p, 512, bytes.len());
    bytes[start..end].fill(forged.byte);
}

// In the next place of its kind's part. Answers how many keys it has then; where the room is full, only the count rises.
fn append_in(room: usize, words: &mut [u64], bytes: &mut [u8], n: usize, forged: Forged) -> usize
    requires { (room ≤ 256) × (5 * room ≤ length words.old) }
{
    if room <= n {
        return room + 1;
    }
    let (rows, order) = words.split_at_mut(4 * room);
    let key = forged.key;
    let j = place_in(rows, &order[..n], key);
    numbers::put(order, j, n, n as u64);
    row_put(rows, n, key.table, key.index, forged.id, forged.mark);
    fill_slot(bytes, n, forged);
    n + 1
}

pub fn append(
    holder: Holder,
    counts: Counts,
    words: &mut [u64],
    bytes: &mut [u8],
    forged: Forged,
) -> Counts
    requires { (words_all holder ≤ length words.old) × (bytes_all holder ≤ length bytes.old) }
{
    let s = part_of(holder, forged.kind);
    let n = append_in(
        s.room,
        &mut words[s.words_at..s.words_end],
        &mut bytes[s.bytes_at..s.bytes_end],
        counts.of(forged.kind),
        forged,
    );
    counts.with(forged.kind, n)
}
