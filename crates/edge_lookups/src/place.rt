// Where a key's bytes lie in one kind's part of a memory.
ghost use Rattle.std.specs.Prelude.{◌≡◌, true, ◌≤◌, length, IfSome};
ghost use Rattle.keys.specs.Keys.{rank};
ghost use Rattle.overlay.specs.Rules.{overlay_kept};
ghost use Rattle.memory.specs.Parts.{span_of, words_all, bytes_all, part_of};
ghost use Rattle.query.specs.Places.{stored_place};

use directory::TableKind;
use memory::{Counts, Holder};
use query::place_in;

pub(crate) fn place_of(
    holder: Holder,
    kind: TableKind,
    counts: Counts,
    words: &[u64],
    bytes: &[u8],
    table: u16,
    index: u64,
) -> Option<(usize, usize)>
    requires { (length words.now ≡ words_all holder) × (length bytes.now ≡ bytes_all holder) × (overlay_kept kind (span_of holder kind).room (part_of holder kind counts words.now bytes.now) ≡ true) }
    ensures place { result ≡ stored_place kind (part_of holder kind counts words.now bytes.now) (rank table index) }
    ensures within { IfSome result (λ p. p.0 ≤ length bytes.now) }
{
    place_in(
        kind,
        holder.room(kind),
        holder.words(kind, words),
        holder.bytes(kind, bytes),
        counts.of(kind),
        u64::from(table),
        index,
    )
}
