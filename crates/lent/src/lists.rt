// The calls of a change list, of the same names.
ghost use Rattle.std.specs.Prelude.{◌≡◌};
ghost use Rattle.directory.specs.declared.table.TableKind.TheVariants.{Index, Value, RefCount};
ghost use Rattle.change.specs.Change.{change_of};
ghost use Rattle.change.specs.Insert.{made_of, inserted};
ghost use Rattle.change.specs.Drop.{table_dropped, count_table_dropped};
ghost use Rattle.change.specs.Size.{sized};
ghost use Rattle.lent.specs.Lent.{gathered};

use super::slice::gather;
use answer::Answer;
use change::{Changed, LogChange};
use directory::{IndexTableId, RefCountTableId, TableDescription, ValueTableId};

pub fn insert_index(
    list: LogChange,
    tables: &[TableDescription],
    words: &mut [u64],
    bytes: &mut [u8],
    table: IndexTableId,
    index: u64,
    sub: u8,
    data: &[u8],
) -> Changed
    ensures { made_of result words.new bytes.new
        ≡ inserted Index (gathered tables.now) (change_of list words.old bytes.old) table.0 index sub «data».now }
{
    list.insert_index(gather(tables), words, bytes, table, index, sub, data)
}

pub fn insert_value(
    list: LogChange,
    tables: &[TableDescription],
    words: &mut [u64],
    bytes: &mut [u8],
    table: ValueTableId,
    index: u64,
    data: &[u8],
) -> Changed
    ensures { made_of result words.new bytes.new
        ≡ inserted Value (gathered tables.now) (change_of list words.old bytes.old) table.0 index 0 «data».now }
{
    list.insert_value(gather(tables), words, bytes, table, index, data)
}

pub fn insert_ref_count(
    list: LogChange,
    tables: &[TableDescription],
    words: &mut [u64],
    bytes: &mut [u8],
    table: RefCountTableId,
    index: u64,
    sub: u8,
    data: &[u8],
) -> Changed
    ensures { made_of result words.new bytes.new
        ≡ inserted RefCount (gathered tables.now) (change_of list words.old bytes.old) table.0 index sub «data».now }
{
    list.insert_ref_count(gather(tables), words, bytes, table, index, sub, data)
}

pub fn drop_table(
    list: LogChange,
    tables: &[TableDescription],
    words: &[u64],
    bytes: &[u8],
    id: IndexTableId,
) -> Changed
    ensures { made_of result words.now bytes.now
        ≡ table_dropped (gathered tables.now) (change_of list words.now bytes.now) id.0 }
{
    list.drop_table(gather(tables), words, bytes, id)
}

pub fn drop_ref_count_table(
    list: LogChange,
    tables: &[TableDescription],
    words: &[u64],
    bytes: &[u8],
    id: RefCountTableId,
) -> Changed
    ensures { made_of result words.now bytes.now
        ≡ count_table_dropped (gathered tables.now) (change_of list words.now bytes.now) id.0 }
{
    list.drop_ref_count_table(gather(tables), words, bytes, id)
}

pub fn record_size(
    list: LogChange,
    tables: &[TableDescription],
    words: &[u64],
    bytes: &[u8],
) -> Result<usize, Answer>
    ensures { result ≡ sized (gathered tables.now) (change_of list words.now bytes.now) }
{
    list.record_size(gather(tables), words, bytes)
}
