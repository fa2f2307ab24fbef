// The shared overlays, action by action.
ghost use Rattle.std.specs.Prelude.{◌≡◌, true};
ghost use Rattle.memory.specs.declared.span.Holder.TheVariants.{Shared};
ghost use Rattle.memory.specs.Parts.{parts_of, parts_kept};
ghost use Rattle.replay.specs.Inner.{is_walked, Walker};
ghost use Rattle.replay.specs.Replay.{rest_in};
ghost use Rattle.clearing.specs.Clear.{named_by, cleared_key};
ghost use Rattle.clearing.specs.Inner.{cleared_walk};

use directory::{Directory, TableKind};
use memory::{Counts, Holder};
use record::{LogAction, LogReader};

// The key that an action names, in a table of a kind.
fn named_by(action: LogAction) -> Option<(TableKind, u16, u64)>
    ensures { result ≡ named_by action }
{
    match action {
        LogAction::InsertIndex(a) => Some((TableKind::Index, a.table.0, a.index)),
        LogAction::InsertValue(a) => Some((TableKind::Value, a.table.0, a.index)),
        LogAction::InsertRefCount(a) => Some((TableKind::RefCount, a.table.0, a.index)),
        LogAction::BeginRecord
        | LogAction::EndRecord
        | LogAction::DropTable(_)
        | LogAction::DropRefCountTable(_) => None,
    }
}

// The entry that an action names, if it has the record's id.
fn clear_action(
    action: LogAction,
    counts: Counts,
    words: &mut [u64],
    bytes: &mut [u8],
    id: u64,
) -> Counts
    requires { parts_kept Shared (parts_of Shared counts words.old bytes.old) ≡ true }
    ensures { parts_of Shared result words.new bytes.new
        ≡ cleared_key id (named_by action) (parts_of Shared counts words.old bytes.old) }
{
    match named_by(action) {
        None => counts,
        Some((kind, table, index)) => memory::remove_in(
            Holder::Shared,
            kind,
            counts,
            words,
            bytes,
            table,
            index,
            id,
        ),
    }
}

// The entries that a record names, from inside it to its end. It meets no refusal, since the record was checked.
pub fn clear_rest(
    directory: &Directory,
    log: &[u8],
    r: LogReader,
    counts: Counts,
    words: &mut [u64],
    bytes: &mut [u8],
) -> Counts
    requires { Walker log.now r × (parts_kept Shared (parts_of Shared counts words.old bytes.old) ≡ true)
        × (is_walked (rest_in directory.now log.now r) ≡ true) }
    ensures { parts_of Shared result words.new bytes.new
        ≡ cleared_walk r.record_id (rest_in directory.now log.now r) (parts_of Shared counts words.old bytes.old) }
{
    let id = r.record_id;
    let mut at = r.position;
    let mut left = counts;
    while let Ok(i) = record::item_at(directory, log, at, r.validate, r.crc32) {
        if i.action.is_end() {
            break;
        }
        left = clear_action(i.action, left, words, bytes, id);
        at = i.start + i.length;
    }
    left
}
