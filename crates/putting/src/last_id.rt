// The columns' last ids, which only values set: log.rs line 879.
ghost use Rattle.std.specs.Prelude.{◌≡◌, true, [], ◌*◌, ◌≤◌, length, set};
ghost use Rattle.directory.specs.Directory.{find_table};
ghost use Rattle.directory.specs.declared.table.TableKind.TheVariants.{Value};
ghost use Rattle.overlay.specs.Rules.{rows_of, order_of, keys_ruled, overlay_of};
ghost use Rattle.memory.specs.Parts.{part_of};
ghost use Rattle.memory.specs.declared.span.Holder.TheVariants.{List};
ghost use Rattle.putting.specs.Listed.{column_of, last_ids_put};
ghost use Rattle.putting.specs.Inner.{KeysIn, with_last_ids};

use directory::{Directory, TableKind};
use memory::{Counts, Holder, LogOverlays};

fn column_of(directory: Directory, table: u16) -> u8
    ensures { result ≡ column_of (find_table directory Value table) }
{
    directory
        .find(TableKind::Value, table)
        .map_or(8, |(_, t)| t.column)
}

fn with_last_id(mut overlays: LogOverlays, column: u8, id: u64) -> LogOverlays
    ensures { result ≡ with_last_ids overlays (set overlays.last_record_ids column id) }
{
    if column < 8 {
        overlays.last_record_ids[usize::from(column)] = id;
    }
    overlays
}

// The n values of the list's part, each setting its column's.
fn last_ids(
    directory: Directory,
    overlays: LogOverlays,
    id: u64,
    room: usize,
    listed: &[u64],
    n: usize,
) -> LogOverlays
    requires { (length listed.now ≡ 5 * room) × (room ≤ 256) × (keys_ruled Value room (rows_of room listed.now) (order_of room listed.now) n ≡ true) }
    ensures { result ≡ with_last_ids overlays (last_ids_put directory id (overlay_of room listed.now [] n) overlays.last_record_ids) }
{
    let cut = 4 * room;
    let mut o = overlays;
    for i in 0..n {
        let p = listed[cut + i] as usize;
        let table = listed[4 * p] as u16;
        o = with_last_id(o, column_of(directory, table), id);
    }
    o
}

// The values of a list, in its words.
pub(crate) fn set_last_ids(
    directory: Directory,
    overlays: LogOverlays,
    id: u64,
    list: Counts,
    list_words: &[u64],
) -> LogOverlays
    requires { KeysIn List Value list list_words.now }
    ensures { result ≡ with_last_ids overlays (last_ids_put directory id (part_of List Value list list_words.now []) overlays.last_record_ids) }
{
    let mine = Holder::List.words(TableKind::Value, list_words);
    last_ids(
        directory,
        overlays,
        id,
        Holder::List.room(TableKind::Value),
        mine,
        list.value,
    )
}
