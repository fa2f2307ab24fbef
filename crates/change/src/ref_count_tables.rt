// The calls on reference count tables. log.rs lines 500 to 515 and 521 to 523.
ghost use Rattle.std.specs.Prelude.{◌≡◌, true};
ghost use Rattle.directory.specs.declared.table.TableKind.TheVariants.{RefCount};
ghost use Rattle.change.specs.Change.{change_of, change_kept};
ghost use Rattle.change.specs.Insert.{made_of, inserted_kept, inserted};
ghost use Rattle.change.specs.Drop.{count_table_dropped_kept, count_table_dropped};

use super::change::{Changed, LogChange};
use answer::Answer;
use directory::TableKind::RefCount;
use directory::{Directory, RefCountTableId};

impl LogChange {
    pub fn insert_ref_count(
        self,
        directory: Directory,
        words: &mut [u64],
        bytes: &mut [u8],
        table: RefCountTableId,
        index: u64,
        sub: u8,
        data: &[u8],
    ) -> Changed
        ensures { made_of result words.new bytes.new
            ≡ inserted RefCount directory (change_of self words.old bytes.old) table.0 index sub «data».now }
    {
        self.insert(directory, words, bytes, RefCount, table.0, index, sub, data)
    }

    pub fn insert_ref_count_kept(
        self,
        directory: Directory,
        words: &mut [u64],
        bytes: &mut [u8],
        table: RefCountTableId,
        index: u64,
        sub: u8,
        data: &[u8],
    ) -> Changed
        requires { change_kept directory (change_of self words.old bytes.old) ≡ true }
        ensures { made_of result words.new bytes.new
            ≡ inserted_kept RefCount directory (change_of self words.old bytes.old) table.0 index sub «data».now }
    {
        self.insert_kept(directory, words, bytes, RefCount, table.0, index, sub, data)
    }

    pub fn drop_ref_count_table(
        self,
        directory: Directory,
        words: &[u64],
        bytes: &[u8],
        id: RefCountTableId,
    ) -> Changed
        ensures { made_of result words.now bytes.now
            ≡ count_table_dropped directory (change_of self words.now bytes.now) id.0 }
    {
        if !self.kept(directory, words, bytes) {
            return Changed {
                answer: Answer::BadState,
                list: self,
            };
        }
        self.drop_ref_count_table_kept(directory, words, bytes, id)
    }

    pub fn drop_ref_count_table_kept(
        self,
        directory: Directory,
        words: &[u64],
        bytes: &[u8],
        id: RefCountTableId,
    ) -> Changed
        requires { change_kept directory (change_of self words.now bytes.now) ≡ true }
        ensures { made_of result words.now bytes.now
            ≡ count_table_dropped_kept directory (change_of self words.now bytes.now) id.0 }
    {
        match self
            .dropped_ref_count_tables
            .dropped(directory, RefCount, id.0)
        {
            Err(answer) => Changed { answer, list: self },
            Ok(dropped_ref_count_tables) => Changed {
                answer: Answer::Done,
                list: LogChange {
                    dropped_ref_count_tables,
                    ..self
                },
            },
        }
    }
}
