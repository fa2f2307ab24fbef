// The mark of a key: its mask with the slot's bit, or the value's length.
ghost use Rattle.std.specs.Prelude.{◌≡◌, ◌<◌, ◌^◌};
ghost use Rattle.std.specs.Int.Bits.{bit_or};
ghost use Rattle.change.specs.Insert.{mark_of};

use directory::TableKind;

fn with_bit(mask: u64, sub: u8) -> u64
    requires { sub < 64 }
    ensures { result ≡ bit_or mask (2 ^ sub) }
{
    mask | (1u64 << sub)
}

pub(crate) fn mark(kind: TableKind, old: u64, sub: u8, data: &[u8]) -> u64
    requires { sub < 64 }
    ensures { result ≡ mark_of kind old sub «data».now }
{
    match kind {
        TableKind::Index | TableKind::RefCount => with_bit(old, sub),
        TableKind::Value => data.len() as u64,
    }
}
