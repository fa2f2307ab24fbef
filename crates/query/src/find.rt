// A key looked up in one kind's parts: where its bytes lie, or the bytes themselves, no copy.
ghost use Rattle.std.specs.Prelude.{◌≡◌, true, ◌+◌, ◌≤◌, length, IfSome};
ghost use Rattle.keys.specs.Keys.{rank};
ghost use Rattle.overlay.specs.Rules.{overlay_of, overlay_kept};
ghost use Rattle.query.specs.Places.{stored_place};
ghost use Rattle.query.specs.Inner.{found_in};

use directory::TableKind;
use overlay::Seat;

// Where a key's bytes lie in its kind's part, and how many there are.
pub fn place_in(
    kind: TableKind,
    room: usize,
    words: &[u64],
    bytes: &[u8],
    n: usize,
    table: u64,
    index: u64,
) -> Option<(usize, usize)>
    requires { overlay_kept kind room (overlay_of room words.now bytes.now n) ≡ true }
    ensures place { result ≡ stored_place kind (overlay_of room words.now bytes.now n) (rank table index) }
    ensures within { IfSome result (λ p. p.0 + p.1 ≤ length bytes.now) }
{
    match overlay::seat_of(room, words, n, table, index) {
        Seat::Over(p) => Some((
            overlay::slot_size(kind) * p,
            overlay::stored_length(kind, words[4 * p + 3]),
        )),
        Seat::Next(_) => None,
    }
}

pub(crate) fn find_in<'a>(
    kind: TableKind,
    room: usize,
    words: &[u64],
    bytes: &'a [u8],
    n: usize,
    table: u16,
    index: u64,
) -> &'a [u8]
    requires { overlay_kept kind room (overlay_of room words.now bytes.now n) ≡ true }
    ensures { result.now ≡ found_in kind (overlay_of room words.now bytes.now n) (rank table index) }
{
    match place_in(kind, room, words, bytes, n, u64::from(table), index) {
        Some((at, length)) => &bytes[at..at + length],
        None => &bytes[..0],
    }
}
