// Where the keys and bytes of a kind lie.
ghost use Rattle.std.specs.Prelude.{◌≤◌, ◌<◌};
ghost use Rattle.compare_keys.specs.Bounds.{PartFits};

use directory::TableKind;
use memory::{Holder, Span};

// The part of a kind, with its bounds.
pub fn part_of(holder: Holder, kind: TableKind) -> Span
    ensures { PartFits holder result }
{
    memory::span_of(holder, kind)
}

// Where the bytes of place p, a chunk or a value of that length, start and end within a memory of so many.
pub fn slot_of(kind: TableKind, p: usize, length: u16, memory: usize) -> (usize, usize)
    requires { p < 256 }
    ensures { (result.0 ≤ result.1) × (result.1 ≤ memory) }
{
    let start = memory.min(kind.unit(512) * p);
    let end = start + kind.unit(length).min(memory - start);
    (start, end)
}
