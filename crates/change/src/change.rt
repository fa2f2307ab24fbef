// The change list by value: its id, how many keys it has, and its drops. log.rs lines 355 to 374 and 471 to 478.
ghost use Rattle.std.specs.Prelude.{◌≡◌};
ghost use Rattle.change.specs.Change.{change_of, new_list, change_ruled, change_kept};

use super::drops::Drops;
use super::ruled::Ruled;
use answer::Answer;
use directory::Directory;
use memory::{Counts, Holder};

#[derive(Clone, Copy)]
pub struct LogChange {
    pub record_id: u64,
    pub counts: Counts,
    pub dropped_tables: Drops,
    pub dropped_ref_count_tables: Drops,
}

// An answer, with the list as it then is: after a refusal as it was.
#[derive(Clone, Copy)]
pub struct Changed {
    pub answer: Answer,
    pub list: LogChange,
}

impl LogChange {
    // An empty list; its memories may hold anything.
    pub fn new(record_id: u64) -> LogChange
        ensures { result ≡ new_list record_id }
    {
        LogChange {
            record_id,
            counts: Counts::new(),
            dropped_tables: Drops::new(),
            dropped_ref_count_tables: Drops::new(),
        }
    }

    pub fn record_id(self) -> u64
        ensures { result ≡ self.record_id }
    {
        self.record_id
    }

    // Whether the list keeps the rules that need no directory.
    pub fn ruled(self, words: &[u64], bytes: &[u8]) -> bool
        ensures { result ≡ change_ruled (change_of self words.now bytes.now) }
    {
        self.dropped_tables.count <= 16
            && self.dropped_ref_count_tables.count <= 16
            && memory::all_kept(Holder::List, self.counts, words, bytes)
    }

    // Whether directory, list and memories keep their rules; where they don't, a call that is handed them answers 13.
    pub fn kept(self, directory: Directory, words: &[u64], bytes: &[u8]) -> bool
        ensures { result ≡ change_kept directory (change_of self words.now bytes.now) }
    {
        directory.kept()
            && self.ruled(words, bytes)
            && Ruled {
                list: self,
                words,
                bytes,
            }
            .fits(directory)
    }
}
