// Descriptions one behind the other: the tables in use of a directory.
ghost use Rattle.std.specs.Prelude.{◌≡◌, ◌&&◌, not, ◌<◌, ◌≤◌, length, IfSome};
ghost use Rattle.directory.specs.Table.{table_kept};
ghost use Rattle.directory.specs.Directory.{find_from, stands, each_kept, apart, sizes_of};

use super::table::{TableDescription, TableKind};

// The first table of that kind and number, with its row. (A `for`: among 16 tables `position` takes a sixth longer.)
pub(crate) fn found(
    tables: &[TableDescription],
    kind: TableKind,
    number: u16,
) -> Option<(usize, TableDescription)>
    ensures first { result ≡ find_from 0 tables.now kind number }
    ensures within { IfSome result (λ at. at.0 < length tables.now) }
{
    for (row, t) in tables.iter().enumerate() {
        if t.is(kind, number) {
            return Some((row, *t));
        }
    }
    None
}

// Whether a table keeps its own rules, and none of the others has its kind and number.
fn stands_alone(t: TableDescription, others: &[TableDescription]) -> bool
    ensures { result ≡ table_kept t && not (stands others.now t.kind t.number) }
{
    t.kept() && !others.iter().any(|other| other.is(t.kind, t.number))
}

// Whether each keeps its own rules and no two share kind and number.
pub(crate) fn all_kept(tables: &[TableDescription]) -> bool
    ensures { result ≡ each_kept tables.now && apart tables.now }
{
    for (row, t) in tables.iter().enumerate() {
        if !stands_alone(*t, &tables[row + 1..]) {
            return false;
        }
    }
    true
}

// How many bytes of the image they have together.
pub(crate) fn sizes(tables: &[TableDescription]) -> usize
    requires { length tables.now ≤ 16 }
    ensures { result ≡ sizes_of tables.now }
{
    tables.iter().map(|t| t.size()).sum()
}
