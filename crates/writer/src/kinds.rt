// The entries of a kind, as the order of its keys has them. log.rs lines 394 to 432.
ghost use Rattle.std.specs.Prelude.{◌+◌, ◌≤◌, length};
ghost use Rattle.memory.specs.Parts.{of_kind};
ghost use Rattle.change.specs.Ruled.{list_of};
ghost use Rattle.output.specs.Put.{Wrote};
ghost use Rattle.writer.specs.Bytes.{entries};

use super::entry::put_key;
use change::Ruled;
use directory::TableKind;

pub(crate) fn put_kind(out: &mut [u8], at: usize, kind: TableKind, lent: Ruled) -> usize
    requires { at + length (entries kind (of_kind kind (list_of lent).parts)) ≤ length out.old }
    ensures { Wrote out.old at (entries kind (of_kind kind (list_of lent.entry).parts)) out.new result }
{
    let keys = lent.keys(kind);
    let slots = lent.slots(kind);
    let mut o = at;
    for place in keys.order {
        o = put_key(out, o, kind, keys.rows, *place as usize, slots);
    }
    o
}
