// An entry taken out, if its id is the one given: any room.
ghost use Rattle.std.specs.Prelude.{◌≡◌, true};
ghost use Rattle.keys.specs.Keys.{rank};
ghost use Rattle.overlay.specs.Rules.{overlay_kept, overlay_of};
ghost use Rattle.overlay.specs.Overlay.{removed_from};

use super::place::{order_move, row_move, slot_move};
use super::rules::slot_size;
use super::seat::{keys_in, leaving_of};
use directory::TableKind;
use keys::Key;

// Takes the entry of the key out if its id is the one given; hands back how many are left.
pub fn remove(
    kind: TableKind,
    room: usize,
    words: &mut [u64],
    bytes: &mut [u8],
    n: usize,
    table: u16,
    index: u64,
    id: u64,
) -> usize
    requires { overlay_kept kind room (overlay_of room words.old bytes.old n) ≡ true }
    ensures { overlay_of room words.new bytes.new result
        ≡ removed_from kind (overlay_of room words.old bytes.old n) (rank table index) id }
{
    let key = Key {
        table: u64::from(table),
        index,
    };
    match leaving_of(keys_in(room, words, n), key, id) {
        None => n,
        Some((j, p)) => {
            let last = n - 1;
            let (rows, order) = words.split_at_mut(4 * room);
            order_move(order, j, last, p);
            row_move(rows, last, p);
            slot_move(bytes, slot_size(kind), last, p);
            last
        }
    }
}
