// Whether what is listed fits the directory.
ghost use Rattle.std.specs.Prelude.{◌≡◌, true, []};
ghost use Rattle.directory.specs.Directory.{find_table};
ghost use Rattle.keys.specs.Keys.{every};
ghost use Rattle.overlay.specs.Rules.{row_ruled, lists_of};
ghost use Rattle.change.specs.Change.{mark_fits, key_fits, entry_fits};

use directory::{Directory, TableDescription, TableKind};
use keys::Keys;

fn mark_fits(kind: TableKind, t: TableDescription, mark: u64) -> bool
    ensures { result ≡ mark_fits kind t mark }
{
    match kind {
        TableKind::Index | TableKind::RefCount => true,
        TableKind::Value => mark == u64::from(t.length),
    }
}

fn key_fits(
    kind: TableKind,
    found: Option<(usize, TableDescription)>,
    index: u64,
    mark: u64,
) -> bool
    ensures { result ≡ key_fits kind found index mark }
{
    match found {
        Some((_, t)) => index < u64::from(t.count) && mark_fits(kind, t, mark),
        None => false,
    }
}

// The table of a number, where the one found last is at hand: keys in order have few changes of the table.
fn table_after(
    directory: Directory,
    kind: TableKind,
    last: u16,
    found: Option<(usize, TableDescription)>,
    table: u16,
) -> Option<(usize, TableDescription)>
    requires { found ≡ find_table directory kind last }
    ensures { result ≡ find_table directory kind table }
{
    if table == last {
        return found;
    }
    directory.find(kind, table)
}

// Whether the keys of a kind do.
#[tactic(auto, using(crate::proofs::Fitting::row_there))]
pub(crate) fn all_fit(directory: Directory, kind: TableKind, keys: Keys) -> bool
    requires { every (row_ruled kind keys.rows.now) keys.order.now ≡ true }
    ensures { result ≡ every (entry_fits directory kind (lists_of keys.entry.rows.now [] [] 0)) keys.entry.order.now }
{
    let mut last: u16 = 0;
    let mut found = directory.find(kind, last);
    for place in keys.order {
        let p = *place as usize;
        let table = keys.rows[4 * p] as u16;
        found = table_after(directory, kind, last, found, table);
        last = table;
        if !key_fits(kind, found, keys.rows[4 * p + 1], keys.rows[4 * p + 3]) {
            return false;
        }
    }
    true
}
