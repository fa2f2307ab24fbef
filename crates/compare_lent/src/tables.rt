// What a script says of the tables, and in which form they are handed on.
ghost use Rattle.std.specs.Prelude.{◌≡◌, ◌≤◌, length, take, min};

use directory::{Directory, TableDescription, TableKind};

// A count may pass the rows: 17 tables are as many as it takes to be too many.
#[derive(Clone, Copy)]
pub struct Tables {
    pub rows: [TableDescription; 17],
    pub count: usize,
    pub lent: bool,
}

impl Tables {
    pub fn new() -> Tables {
        let none = TableDescription::new(TableKind::Index, 0, 0, 0, 0);
        Tables {
            rows: [none; 17],
            count: 0,
            lent: false,
        }
    }

    // The rows that are lent.
    pub fn shown(&self) -> &[TableDescription]
        ensures few { length result.now ≤ 17 }
        ensures front { result.now ≡ take (min self.now.count 17) self.now.rows }
    {
        &self.rows[..self.count.min(17)]
    }

    // By value: the first 16 rows, and the count as it is.
    pub fn directory(&self) -> Directory {
        let mut d = Directory::new();
        d.count = self.count;
        d.tables.copy_from_slice(&self.rows[..16]);
        d
    }
}
