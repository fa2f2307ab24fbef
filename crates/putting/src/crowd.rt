// Whether shared and listed keys together pass the room of the shared ones.
ghost use Rattle.std.specs.Prelude.{◌≡◌, true, [], ◌*◌, ◌≤◌, length};
ghost use Rattle.keys.specs.Keys.{ruled, news};
ghost use Rattle.overlay.specs.Rules.{rows_of, order_of, overlay_of};
ghost use Rattle.directory.specs.declared.table.TableKind.{TableKind};
ghost use Rattle.memory.specs.Parts.{part_of, parts_of};
ghost use Rattle.memory.specs.declared.span.Holder.TheVariants.{Shared, List};
ghost use Rattle.putting.specs.Listed.{keys_held, passes, crowded};
ghost use Rattle.putting.specs.Inner.{KeysIn};

use directory::TableKind;
use memory::{Counts, Holder};

// How many listed keys the shared ones lack: parts of one kind, each of its room.
fn lacking(
    room: usize,
    words: &[u64],
    n: usize,
    list_room: usize,
    listed: &[u64],
    m: usize,
) -> usize
    requires words_len { (length words.now ≡ 5 * room) × (n ≤ room) × (ruled (rows_of room words.now) (order_of room words.now) n ≡ true) }
    requires listed_len { (length listed.now ≡ 5 * list_room) × (m ≤ list_room) × (ruled (rows_of list_room listed.now) (order_of list_room listed.now) m ≡ true) }
    ensures { result ≡ news (keys_held (overlay_of room words.now [] n)) (keys_held (overlay_of list_room listed.now [] m)) }
{
    let shared = overlay::keys_in(room, words, n);
    shared.lacking(overlay::keys_in(list_room, listed, m))
}

fn kind_crowded<'a>(
    kind: TableKind,
    list: Counts,
    list_words: &'a [u64],
    counts: Counts,
    words: &'a [u64],
) -> bool
    requires { KeysIn List kind list list_words.now × KeysIn Shared kind counts words.now }
    ensures { result ≡ passes (part_of List kind list list_words.now []) (part_of Shared kind counts words.now []) }
{
    let n = counts.of(kind);
    let more = lacking(
        Holder::Shared.room(kind),
        Holder::Shared.words(kind, words),
        n,
        Holder::List.room(kind),
        Holder::List.words(kind, list_words),
        list.of(kind),
    );
    256 - n < more
}

// Whether there is no room for the keys of a list.
pub fn any_crowded<'a>(
    list: Counts,
    list_words: &'a [u64],
    counts: Counts,
    words: &'a [u64],
) -> bool
    requires { ((kind : TableKind) → KeysIn List kind list list_words.now) × ((kind : TableKind) → KeysIn Shared kind counts words.now) }
    ensures { result ≡ crowded (parts_of List list list_words.now []) (parts_of Shared counts words.now []) }
{
    kind_crowded(TableKind::Index, list, list_words, counts, words)
        || kind_crowded(TableKind::Value, list, list_words, counts, words)
        || kind_crowded(TableKind::RefCount, list, list_words, counts, words)
}
