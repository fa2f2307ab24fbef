// The drops of one kind, in call order, repeats kept.
ghost use Rattle.std.specs.Prelude.{◌≡◌, ◌<◌, ◌≤◌};
ghost use Rattle.directory.specs.Directory.{tables_of, stands};
ghost use Rattle.change.specs.Change.{no_drops, drops_fit};
ghost use Rattle.change.specs.Drop.{drops_with, dropped_in};

use answer::Answer;
use directory::{Directory, TableKind};

#[derive(Clone, Copy)]
pub struct Drops {
    pub tables: [u16; 16],
    pub count: usize,
}

fn is_there(directory: Directory, kind: TableKind, number: u16) -> bool
    ensures { result ≡ stands (tables_of directory) kind number }
{
    directory.find(kind, number).is_some()
}

impl Drops {
    pub fn new() -> Drops
        ensures { result ≡ no_drops }
    {
        Drops {
            tables: [0u16; 16],
            count: 0,
        }
    }

    // Whether each is of a table of the directory.
    pub(crate) fn fit(self, directory: Directory, kind: TableKind) -> bool
        requires { self.count ≤ 16 }
        ensures { result ≡ drops_fit directory kind self }
    {
        self.tables[..self.count]
            .iter()
            .all(|number| is_there(directory, kind, *number))
    }

    // One more.
    fn with(mut self, number: u16) -> Drops
        requires { self.count < 16 }
        ensures { result ≡ drops_with self number }
    {
        self.tables[self.count] = number;
        self.count += 1;
        self
    }

    // 6, 9.
    #[tactic(auto, unfolding(crate::specs::Drop::dropped_in))]
    pub(crate) fn dropped(
        self,
        directory: Directory,
        kind: TableKind,
        number: u16,
    ) -> Result<Drops, Answer>
        ensures { result ≡ dropped_in directory kind self number }
    {
        if !is_there(directory, kind, number) {
            return Err(Answer::NoTable);
        }
        if 16 <= self.count {
            return Err(Answer::NoRoom);
        }
        Ok(self.with(number))
    }
}
