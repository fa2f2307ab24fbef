// A lent slice of descriptions as a directory by value.
ghost use Rattle.std.specs.Prelude.{◌≡◌};
ghost use Rattle.lent.specs.Lent.{gathered};

use directory::{Directory, TableDescription};

// The directory by value that holds the slice's descriptions; one of more than 16 counts 17, which no rule allows.
pub fn gather(tables: &[TableDescription]) -> Directory
    ensures { result ≡ gathered tables.now }
{
    let n = tables.len().min(16);
    let mut gathered = Directory::new().tables;
    gathered[..n].copy_from_slice(&tables[..n]);
    Directory {
        tables: gathered,
        count: tables.len().min(17),
    }
}
