// How many keys of each kind are in use: what goes by value.
ghost use Rattle.std.specs.Prelude.{◌≡◌};
ghost use Rattle.memory.specs.Parts.{no_counts, count_of, with_count};

use directory::TableKind;

#[derive(Clone, Copy)]
pub struct Counts {
    pub index: usize,
    pub value: usize,
    pub ref_count: usize,
}

impl Counts {
    pub fn new() -> Counts
        ensures { result ≡ no_counts }
    {
        Counts {
            index: 0,
            value: 0,
            ref_count: 0,
        }
    }

    pub fn of(self, kind: TableKind) -> usize
        ensures { result ≡ count_of kind self }
    {
        match kind {
            TableKind::Index => self.index,
            TableKind::Value => self.value,
            TableKind::RefCount => self.ref_count,
        }
    }

    pub fn with(mut self, kind: TableKind, n: usize) -> Counts
        ensures { result ≡ with_count kind self n }
    {
        match kind {
            TableKind::Index => self.index = n,
            TableKind::Value => self.value = n,
            TableKind::RefCount => self.ref_count = n,
        }
        self
    }
}
