// The calls on index tables. log.rs lines 480 to 489 and 517 to 519.
ghost use Rattle.std.specs.Prelude.{◌≡◌, true};
ghost use Rattle.directory.specs.declared.table.TableKind.TheVariants.{Index};
ghost use Rattle.change.specs.Change.{change_of, change_kept};
ghost use Rattle.change.specs.Insert.{made_of, inserted_kept, inserted};
ghost use Rattle.change.specs.Drop.{table_dropped_kept, table_dropped};

use super::change::{Changed, LogChange};
use answer::Answer;
use directory::TableKind::Index;
use directory::{Directory, IndexTableId};

impl LogChange {
    pub fn insert_index(
        self,
        directory: Directory,
        words: &mut [u64],
        bytes: &mut [u8],
        table: IndexTableId,
        index: u64,
        sub: u8,
        data: &[u8],
    ) -> Changed
        ensures { made_of result words.new bytes.new
            ≡ inserted Index directory (change_of self words.old bytes.old) table.0 index sub «data».now }
    {
        self.insert(directory, words, bytes, Index, table.0, index, sub, data)
    }

    pub fn insert_index_kept(
        self,
        directory: Directory,
        words: &mut [u64],
        bytes: &mut [u8],
        table: IndexTableId,
        index: u64,
        sub: u8,
        data: &[u8],
    ) -> Changed
        requires { change_kept directory (change_of self words.old bytes.old) ≡ true }
        ensures { made_of result words.new bytes.new
            ≡ inserted_kept Index directory (change_of self words.old bytes.old) table.0 index sub «data».now }
    {
        self.insert_kept(directory, words, bytes, Index, table.0, index, sub, data)
    }

    pub fn drop_table(
        self,
        directory: Directory,
        words: &[u64],
        bytes: &[u8],
        id: IndexTableId,
    ) -> Changed
        ensures { made_of result words.now bytes.now
            ≡ table_dropped directory (change_of self words.now bytes.now) id.0 }
    {
        if !self.kept(directory, words, bytes) {
            return Changed {
                answer: Answer::BadState,
                list: self,
            };
        }
        self.drop_table_kept(directory, words, bytes, id)
    }

    pub fn drop_table_kept(
        self,
        directory: Directory,
        words: &[u64],
        bytes: &[u8],
        id: IndexTableId,
    ) -> Changed
        requires { change_kept directory (change_of self words.now bytes.now) ≡ true }
        ensures { made_of result words.now bytes.now
            ≡ table_dropped_kept directory (change_of self words.now bytes.now) id.0 }
    {
        match self.dropped_tables.dropped(directory, Index, id.0) {
            Err(answer) => Changed { answer, list: self },
            Ok(dropped_tables) => Changed {
                answer: Answer::Done,
                list: LogChange {
                    dropped_tables,
                    ..self
                },
            },
        }
    }
}
