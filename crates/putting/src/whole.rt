// All entries of a list, over the shared ones.
ghost use Rattle.std.specs.Prelude.{◌≡◌, true, false};
ghost use Rattle.memory.specs.Parts.{parts_kept};
ghost use Rattle.memory.specs.declared.span.Holder.TheVariants.{Shared, List};
ghost use Rattle.putting.specs.Listed.{crowded, put_kind, overlays_put};
ghost use Rattle.putting.specs.Inner.{parts_at, overlays_at, ListGoes};

use super::last_id::set_last_ids;
use super::place::put_listed;
use directory::{Directory, TableKind};
use memory::{Counts, Holder, LogOverlays};

// Those of one kind.
fn put_kind<'a>(
    kind: TableKind,
    id: u64,
    list: Counts,
    list_words: &'a [u64],
    list_bytes: &'a [u8],
    counts: Counts,
    words: &mut [u64],
    bytes: &mut [u8],
) -> Counts
    requires { ListGoes kind (parts_at List list list_words.now list_bytes.now) (parts_at Shared counts words.old bytes.old) }
    ensures { parts_at Shared result words.new bytes.new
        ≡ put_kind kind id (parts_at List list list_words.now list_bytes.now) (parts_at Shared counts words.old bytes.old) }
{
    put_listed(
        kind,
        counts,
        words,
        bytes,
        id,
        Holder::List.room(kind),
        Holder::List.words(kind, list_words),
        Holder::List.bytes(kind, list_bytes),
        list.of(kind),
    )
}

// Those of the three kinds, and the last ids.
pub fn put_list<'a>(
    directory: Directory,
    id: u64,
    list: Counts,
    list_words: &'a [u64],
    list_bytes: &'a [u8],
    overlays: LogOverlays,
    words: &mut [u64],
    bytes: &mut [u8],
) -> LogOverlays
    requires { (parts_kept List (parts_at List list list_words.now list_bytes.now) ≡ true)
        × (parts_kept Shared (parts_at Shared overlays.counts words.old bytes.old) ≡ true)
        × (crowded (parts_at List list list_words.now list_bytes.now) (parts_at Shared overlays.counts words.old bytes.old) ≡ false) }
    ensures { overlays_at result words.new bytes.new
        ≡ overlays_put directory id (parts_at List list list_words.now list_bytes.now) (overlays_at overlays words.old bytes.old) }
{
    let mut o = set_last_ids(directory, overlays, id, list, list_words);
    let mut c = overlays.counts;
    c = put_kind(
        TableKind::Index,
        id,
        list,
        list_words,
        list_bytes,
        c,
        words,
        bytes,
    );
    c = put_kind(
        TableKind::Value,
        id,
        list,
        list_words,
        list_bytes,
        c,
        words,
        bytes,
    );
    c = put_kind(
        TableKind::RefCount,
        id,
        list,
        list_words,
        list_bytes,
        c,
        words,
        bytes,
    );
    o.counts = c;
    o
}
