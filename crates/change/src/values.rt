// The values of one table in a list: a run of its order. log.rs lines 376 to 378.
ghost use Rattle.std.specs.Prelude.{◌≡◌, true};
ghost use Rattle.change.specs.Change.{change_of, change_ruled};
ghost use Rattle.change.specs.Values.{values_of_kept, values_of};

use super::change::LogChange;
use super::ruled::Ruled;
use answer::Answer;
use directory::{TableKind, ValueTableId};
use keys::Key;

// Where the values of one table stand: at `from` to `to` of the order, ascending by index.
#[derive(Clone, Copy)]
pub struct LocalValues {
    pub from: usize,
    pub to: usize,
}

impl LogChange {
    // The values of one table: by table number, then index, they stand side by side.
    pub fn local_values_changes_kept(
        self,
        words: &[u64],
        bytes: &[u8],
        id: ValueTableId,
    ) -> LocalValues
        requires { change_ruled (change_of self words.now bytes.now) ≡ true }
        ensures { result ≡ values_of_kept (change_of self words.now bytes.now) id.0 }
    {
        let list = Ruled {
            list: self,
            words,
            bytes,
        };
        let keys = list.keys(TableKind::Value);
        let table = u64::from(id.0);
        LocalValues {
            from: keys.place(Key { table, index: 0 }),
            to: keys.place(Key {
                table: table + 1,
                index: 0,
            }),
        }
    }

    pub fn local_values_changes(
        self,
        words: &[u64],
        bytes: &[u8],
        id: ValueTableId,
    ) -> Result<LocalValues, Answer>
        ensures { result ≡ values_of (change_of self words.now bytes.now) id.0 }
    {
        if !self.ruled(words, bytes) {
            return Err(Answer::BadState);
        }
        Ok(self.local_values_changes_kept(words, bytes, id))
    }
}
