// A table's place, and what the directory comes to, of a directory that is lent.
ghost use Rattle.std.specs.Prelude.{◌≡◌};
ghost use Rattle.directory.specs.Directory.{find_table, directory_kept, start_of, image_length};
ghost use Rattle.lent.specs.Lent.{gathered};

use super::slice::gather;
use directory::{TableDescription, TableKind};

pub fn find(
    tables: &[TableDescription],
    kind: TableKind,
    number: u16,
) -> Option<(usize, TableDescription)>
    ensures { result ≡ find_table (gathered tables.now) kind number }
{
    gather(tables).find(kind, number)
}

pub fn kept(tables: &[TableDescription]) -> bool
    ensures { result ≡ directory_kept (gathered tables.now) }
{
    gather(tables).kept()
}

pub fn start(tables: &[TableDescription], row: usize) -> usize
    ensures { result ≡ start_of (gathered tables.now) row }
{
    gather(tables).start(row)
}

pub fn image_length(tables: &[TableDescription]) -> usize
    ensures { result ≡ image_length (gathered tables.now) }
{
    gather(tables).image_length()
}
