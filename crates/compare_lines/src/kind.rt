// The number of a kind.
ghost use Rattle.std.specs.Prelude.{◌≡◌, ◌≤◌, ◌<◌, MatchResult};
ghost use Rattle.compare_lines.specs.Fields.{kind_of};

use super::fault::Fault;
use directory::TableKind;

// Those above 1 are reference counts; whoever tells them apart from none asks `known_kind`.
pub fn kind_of(number: u8) -> TableKind
    ensures { result ≡ kind_of number }
{
    match number {
        0 => TableKind::Index,
        1 => TableKind::Value,
        _ => TableKind::RefCount,
    }
}

// The same of a command's kind, which is none above 2.
pub fn known_kind(number: u8) -> Result<TableKind, Fault>
    ensures { MatchResult result (λ kind. (kind ≡ kind_of number) × (number ≤ 2)) (λ fault. (fault ≡ Fault.UnknownKind) × (2 < number)) }
{
    if 2 < number {
        return Err(Fault::UnknownKind);
    }
    Ok(kind_of(number))
}
