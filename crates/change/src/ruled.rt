// A list that is known to keep the rules that need no directory.
ghost use Rattle.std.specs.Prelude.{◌≡◌, true, ◌≤◌, length};
ghost use Rattle.keys.specs.Keys.{every};
ghost use Rattle.overlay.specs.Rules.{row_ruled};
ghost use Rattle.memory.specs.Parts.{of_kind};
ghost use Rattle.change.specs.Change.{change_of, places_of, entries_fit, change_ruled, keys_fit, change_fits};
ghost use Rattle.change.specs.Size.{entries_size, record_size};

use super::change::LogChange;
use super::fits::all_fit;
use super::size::places_size;
use directory::{Directory, TableKind};
use keys::Keys;
use memory::Holder;

// With the memories in which its keys and bytes lie.
#[derive(Clone, Copy)]
pub struct Ruled<'a> {
    pub list: LogChange,
    pub words: &'a [u64],
    pub bytes: &'a [u8],
    ghost ruled: { change_ruled (change_of list words.now bytes.now) ≡ true },
}

impl<'a> Ruled<'a> {
    ghost use Rattle.change.specs.Ruled.{list_of};

    // The keys of a kind.
    pub fn keys(self, kind: TableKind) -> Keys<'a>
        ensures rows { result.rows.now ≡ (of_kind kind (list_of self.entry).parts).rows }
        ensures order { result.order.now ≡ places_of (of_kind kind (list_of self.entry).parts) }
        ensures each { every (row_ruled kind result.rows.now) result.order.now ≡ true }
        ensures few { length result.order.now ≤ 32 }
    {
        overlay::keys_in(
            Holder::List.room(kind),
            Holder::List.words(kind, self.words),
            self.list.counts.of(kind),
        )
    }

    // Their slots of bytes.
    pub fn slots(self, kind: TableKind) -> &'a [u8]
        ensures { result.now ≡ (of_kind kind (list_of self.entry).parts).bytes }
    {
        Holder::List.bytes(kind, self.bytes)
    }

    fn kind_fits(self, directory: Directory, kind: TableKind) -> bool
        ensures { result ≡ entries_fit directory kind (of_kind kind (list_of self.entry).parts) }
    {
        all_fit(directory, kind, self.keys(kind))
    }

    fn keys_fit(self, directory: Directory) -> bool
        ensures { result ≡ keys_fit directory (list_of self.entry) }
    {
        self.kind_fits(directory, TableKind::Index)
            && self.kind_fits(directory, TableKind::Value)
            && self.kind_fits(directory, TableKind::RefCount)
    }

    // Whether all that is listed fits the directory.
    pub(crate) fn fits(self, directory: Directory) -> bool
        ensures { result ≡ change_fits directory (list_of self.entry) }
    {
        self.keys_fit(directory)
            && self.list.dropped_tables.fit(directory, TableKind::Index)
            && self
                .list
                .dropped_ref_count_tables
                .fit(directory, TableKind::RefCount)
    }

    fn kind_size(self, kind: TableKind) -> usize
        ensures { (result ≡ entries_size kind (of_kind kind (list_of self.entry).parts)) × (result ≤ 33376) }
    {
        places_size(kind, self.keys(kind))
    }

    // The length of its record.
    pub fn record_size(self) -> usize
        ensures { result ≡ record_size (list_of self.entry) }
    {
        let a = self.kind_size(TableKind::Index);
        let b = self.kind_size(TableKind::Value);
        let c = self.kind_size(TableKind::RefCount);
        let drops = self.list.dropped_tables.count + self.list.dropped_ref_count_tables.count;
        14 + a + b + c + 3 * drops
    }
}
