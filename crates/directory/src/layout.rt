// A directory for a walk over many actions: it is lent, and where each table in use begins in the image stands beside it. By value it would be
// copied at every call, and summed up at every action.
ghost use Rattle.std.specs.Prelude.{◌≡◌, ℕ, ◌<◌, length, get_or};
ghost use Rattle.directory.specs.Directory.{tables_of, start_of};

use super::directory::Directory;
use super::slice::found;
use super::table::{TableDescription, TableKind};

#[derive(Clone, Copy)]
pub struct Layout {
    pub directory: Directory,
    pub starts: [usize; 16],
    ghost begin: { (row : ℕ) → row < length (tables_of directory) → get_or starts row 0 ≡ start_of directory row },
}

impl Layout {
    ghost use Rattle.directory.specs.Inner.{placed_table};

    pub fn of(directory: Directory) -> Layout
        ensures { result.directory ≡ directory }
    {
        let mut starts = [0; 16];
        let mut at = 0;
        for (row, t) in directory.in_use().iter().enumerate() {
            starts[row] = at;
            at += t.size();
        }
        Layout { directory, starts }
    }

    // Where the first table of that kind and number begins in the image, with its description.
    #[tactic(auto, unfolding(crate::specs::Directory::find_table))]
    pub fn place(&self, kind: TableKind, number: u16) -> Option<(usize, TableDescription)>
        ensures { result ≡ placed_table self.now.directory kind number }
    {
        let (row, t) = found(self.directory.in_use(), kind, number)?;
        Some((self.starts[row], t))
    }
}
