// The one path of the inserts: each takes the list by value and hands back the new one. log.rs lines 480 to 515.
ghost use Rattle.std.specs.Prelude.{◌≡◌, true};
ghost use Rattle.directory.specs.Directory.{find_table};
ghost use Rattle.memory.specs.Parts.{of_kind};
ghost use Rattle.change.specs.Change.{change_of, change_kept};
ghost use Rattle.change.specs.Insert.{made_of, plan_in, inserted_kept, inserted};

use super::change::{Changed, LogChange};
use super::marks::mark;
use super::plans::plan_for;
use answer::Answer;
use directory::{Directory, TableKind};
use memory::Holder;
use overlay::NewEntry;

impl LogChange {
    // The mark that an insert adds to, or why it is refused.
    fn planned(
        self,
        directory: Directory,
        words: &[u64],
        bytes: &[u8],
        kind: TableKind,
        number: u16,
        index: u64,
        sub: u8,
        data: &[u8],
    ) -> Result<u64, Answer>
        requires { change_kept directory (change_of self words.now bytes.now) ≡ true }
        ensures { result ≡ plan_in kind (of_kind kind (change_of self words.now bytes.now).parts) (find_table directory kind number) number index sub «data».now }
    {
        plan_for(
            kind,
            Holder::List.room(kind),
            Holder::List.words(kind, words),
            self.counts.of(kind),
            directory.find(kind, number),
            number,
            index,
            sub,
            data,
        )
    }

    // Behind 13. A value has no slot: it is put in as if at slot 0, which no test of it sees.
    pub fn insert_kept(
        self,
        directory: Directory,
        words: &mut [u64],
        bytes: &mut [u8],
        kind: TableKind,
        number: u16,
        index: u64,
        sub: u8,
        data: &[u8],
    ) -> Changed
        requires { change_kept directory (change_of self words.old bytes.old) ≡ true }
        ensures { made_of result words.new bytes.new
            ≡ inserted_kept kind directory (change_of self words.old bytes.old) number index sub «data».now }
    {
        match self.planned(directory, words, bytes, kind, number, index, sub, data) {
            Err(answer) => Changed { answer, list: self },
            Ok(old) => {
                let counts = memory::put_in(
                    Holder::List,
                    kind,
                    self.counts,
                    words,
                    bytes,
                    NewEntry {
                        table: number,
                        index,
                        id: self.record_id,
                        mark: mark(kind, old, sub, data),
                        bytes: data,
                    },
                );
                Changed {
                    answer: Answer::Done,
                    list: LogChange { counts, ..self },
                }
            }
        }
    }

    // The same with the test: for a caller that has the table's kind as a value.
    pub fn insert(
        self,
        directory: Directory,
        words: &mut [u64],
        bytes: &mut [u8],
        kind: TableKind,
        number: u16,
        index: u64,
        sub: u8,
        data: &[u8],
    ) -> Changed
        ensures { made_of result words.new bytes.new
            ≡ inserted kind directory (change_of self words.old bytes.old) number index sub «data».now }
    {
        if !self.kept(directory, words, bytes) {
            return Changed {
                answer: Answer::BadState,
                list: self,
            };
        }
        self.insert_kept(directory, words, bytes, kind, number, index, sub, data)
    }
}
