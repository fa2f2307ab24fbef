// The call on value tables. log.rs lines 491 to 498.
ghost use Rattle.std.specs.Prelude.{◌≡◌, true};
ghost use Rattle.directory.specs.declared.table.TableKind.TheVariants.{Value};
ghost use Rattle.change.specs.Change.{change_of, change_kept};
ghost use Rattle.change.specs.Insert.{made_of, inserted_kept, inserted};

use super::change::{Changed, LogChange};
use directory::TableKind::Value;
use directory::{Directory, ValueTableId};

impl LogChange {
    pub fn insert_value(
        self,
        directory: Directory,
        words: &mut [u64],
        bytes: &mut [u8],
        table: ValueTableId,
        index: u64,
        data: &[u8],
    ) -> Changed
        ensures { made_of result words.new bytes.new
            ≡ inserted Value directory (change_of self words.old bytes.old) table.0 index 0 «data».now }
    {
        self.insert(directory, words, bytes, Value, table.0, index, 0, data)
    }

    pub fn insert_value_kept(
        self,
        directory: Directory,
        words: &mut [u64],
        bytes: &mut [u8],
        table: ValueTableId,
        index: u64,
        data: &[u8],
    ) -> Changed
        requires { change_kept directory (change_of self words.old bytes.old) ≡ true }
        ensures { made_of result words.new bytes.new
            ≡ inserted_kept Value directory (change_of self words.old bytes.old) table.0 index 0 «data».now }
    {
        self.insert_kept(directory, words, bytes, Value, table.0, index, 0, data)
    }
}
