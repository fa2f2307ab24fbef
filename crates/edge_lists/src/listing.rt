// A change list's calls.
ghost use Rattle.std.specs.Prelude.{◌≡◌, true, Ok};
ghost use Rattle.answer.specs.Answer.{number_of};
ghost use Rattle.directory.specs.declared.table.TableKind.TheVariants.{Index, Value, RefCount};
ghost use Rattle.change.specs.Change.{change_of, new_list, change_ruled, change_kept};
ghost use Rattle.change.specs.Insert.{inserted_kept, inserted};
ghost use Rattle.change.specs.Drop.{table_dropped_kept, table_dropped, count_table_dropped_kept, count_table_dropped};
ghost use Rattle.change.specs.Size.{record_size, sized};
ghost use Rattle.change.specs.Values.{values_of_kept, values_of};
ghost use Rattle.writer.specs.Flush.{flush_to_file_kept, flush_to_file};
ghost use Rattle.host_words.specs.Tables.{directory_from};
ghost use Rattle.host_words.specs.Head.{head_room, head_after, HeadLeft};
ghost use Rattle.host_words.specs.Change.{list_size, list_from, list_words_of};
ghost use Rattle.edge_lists.specs.Listing.{DropLeft, InsertLeft, SizeLeft, ValuesLeft};

use answer::Answer;
use change::{Changed, LocalValues, LogChange};
use directory::TableKind::{Index, RefCount, Value};
use directory::{IndexTableId, RefCountTableId, TableKind, ValueTableId};
use host_words::{directory_of, keep, list_of, list_words, make};

// What a call hands back, stored where the host lent room for it.
fn keep_changed(list: &mut [u64], done: Changed) -> u64
    ensures { HeadLeft list_size done.answer (list_words_of done.list) list.old result list.new }
{
    keep(list, done.answer, &list_words(done.list))
}

// A length, 0 where it was refused.
fn keep_size(done: Result<usize, Answer>, size: &mut u64) -> u64
    ensures { SizeLeft done result size.new }
{
    match done {
        Ok(length) => {
            *size = length as u64;
            0
        }
        Err(answer) => {
            *size = 0;
            u64::from(answer.number())
        }
    }
}

// The places of a table's values, 0 where they were refused.
fn keep_values(done: Result<LocalValues, Answer>, from: &mut u64, to: &mut u64) -> u64
    ensures { ValuesLeft done result from.new to.new }
{
    match done {
        Ok(values) => {
            *from = values.from as u64;
            *to = values.to as u64;
            0
        }
        Err(answer) => {
            *from = 0;
            *to = 0;
            u64::from(answer.number())
        }
    }
}

// The one path of the three kinds' inserts.
fn insert(
    tables: &[u64],
    list: &mut [u64],
    items: &mut [u64],
    chunks: &mut [u8],
    kind: TableKind,
    table: u16,
    index: u64,
    sub: u8,
    data: &[u8],
) -> u64
    ensures { InsertLeft (inserted kind (directory_from tables.now) (change_of (list_from list.old) items.old chunks.old) table index sub «data».now) list.old result list.new items.new chunks.new }
{
    let directory = directory_of(tables);
    let done = list_of(list).insert(directory, items, chunks, kind, table, index, sub, data);
    keep_changed(list, done)
}

fn insert_kept(
    tables: &[u64],
    list: &mut [u64],
    items: &mut [u64],
    chunks: &mut [u8],
    kind: TableKind,
    table: u16,
    index: u64,
    sub: u8,
    data: &[u8],
) -> u64
    requires { change_kept (directory_from tables.now) (change_of (list_from list.old) items.old chunks.old) ≡ true }
    ensures { InsertLeft (inserted_kept kind (directory_from tables.now) (change_of (list_from list.old) items.old chunks.old) table index sub «data».now) list.old result list.new items.new chunks.new }
{
    let directory = directory_of(tables);
    let done = list_of(list).insert_kept(directory, items, chunks, kind, table, index, sub, data);
    keep_changed(list, done)
}

#[unsafe(no_mangle)]
pub extern "C" fn hongsathep_list_new(list: &mut [u64], id: u64) -> u64
    ensures answer { result ≡ number_of (head_room list_size list.old) }
    ensures list { list.new ≡ head_after list_size (number_of (head_room list_size list.old)) list.old (list_words_of (new_list id)) }
{
    make(list, &list_words(LogChange::new(id)))
}

#[unsafe(no_mangle)]
pub extern "C" fn hongsathep_insert_index(
    tables: &[u64],
    list: &mut [u64],
    items: &mut [u64],
    chunks: &mut [u8],
    table: u16,
    index: u64,
    sub: u8,
    data: &[u8],
) -> u64
    ensures { InsertLeft (inserted Index (directory_from tables.now) (change_of (list_from list.old) items.old chunks.old) table index sub «data».now) list.old result list.new items.new chunks.new }
{
    insert(tables, list, items, chunks, Index, table, index, sub, data)
}

#[unsafe(no_mangle)]
pub extern "C" fn hongsathep_insert_index_kept(
    tables: &[u64],
    list: &mut [u64],
    items: &mut [u64],
    chunks: &mut [u8],
    table: u16,
    index: u64,
    sub: u8,
    data: &[u8],
) -> u64
    requires { change_kept (directory_from tables.now) (change_of (list_from list.old) items.old chunks.old) ≡ true }
    ensures { InsertLeft (inserted_kept Index (directory_from tables.now) (change_of (list_from list.old) items.old chunks.old) table index sub «data».now) list.old result list.new items.new chunks.new }
{
    insert_kept(tables, list, items, chunks, Index, table, index, sub, data)
}

#[unsafe(no_mangle)]
pub extern "C" fn hongsathep_drop_table(
    tables: &[u64],
    list: &mut [u64],
    items: &[u64],
    chunks: &[u8],
    table: u16,
) -> u64
    ensures { DropLeft (table_dropped (directory_from tables.now) (change_of (list_from list.old) items.now chunks.now) table) list.old result list.new }
{
    let directory = directory_of(tables);
    let done = list_of(list).drop_table(directory, items, chunks, IndexTableId(table));
    keep_changed(list, done)
}

#[unsafe(no_mangle)]
pub extern "C" fn hongsathep_drop_table_kept(
    tables: &[u64],
    list: &mut [u64],
    items: &[u64],
    chunks: &[u8],
    table: u16,
) -> u64
    requires { change_kept (directory_from tables.now) (change_of (list_from list.old) items.now chunks.now) ≡ true }
    ensures { DropLeft (table_dropped_kept (directory_from tables.now) (change_of (list_from list.old) items.now chunks.now) table) list.old result list.new }
{
    let directory = directory_of(tables);
    let done = list_of(list).drop_table_kept(directory, items, chunks, IndexTableId(table));
    keep_changed(list, done)
}

#[unsafe(no_mangle)]
pub extern "C" fn hongsathep_insert_value(
    tables: &[u64],
    list: &mut [u64],
    items: &mut [u64],
    chunks: &mut [u8],
    table: u16,
    index: u64,
    data: &[u8],
) -> u64
    ensures { InsertLeft (inserted Value (directory_from tables.now) (change_of (list_from list.old) items.old chunks.old) table index 0 «data».now) list.old result list.new items.new chunks.new }
{
    insert(tables, list, items, chunks, Value, table, index, 0, data)
}

#[unsafe(no_mangle)]
pub extern "C" fn hongsathep_insert_value_kept(
    tables: &[u64],
    list: &mut [u64],
    items: &mut [u64],
    chunks: &mut [u8],
    table: u16,
    index: u64,
    data: &[u8],
) -> u64
    requires { change_kept (directory_from tables.now) (change_of (list_from list.old) items.old chunks.old) ≡ true }
    ensures { InsertLeft (inserted_kept Value (directory_from tables.now) (change_of (list_from list.old) items.old chunks.old) table index 0 «data».now) list.old result list.new items.new chunks.new }
{
    insert_kept(tables, list, items, chunks, Value, table, index, 0, data)
}

#[unsafe(no_mangle)]
pub extern "C" fn hongsathep_local_values_changes(
    list: &[u64],
    items: &[u64],
    chunks: &[u8],
    table: u16,
    from: &mut u64,
    to: &mut u64,
) -> u64
    ensures { ValuesLeft (values_of (change_of (list_from list.now) items.now chunks.now) table) result from.new to.new }
{
    let done = list_of(list).local_values_changes(items, chunks, ValueTableId(table));
    keep_values(done, from, to)
}

#[unsafe(no_mangle)]
pub extern "C" fn hongsathep_local_values_changes_kept(
    list: &[u64],
    items: &[u64],
    chunks: &[u8],
    table: u16,
    from: &mut u64,
    to: &mut u64,
) -> u64
    requires { change_ruled (change_of (list_from list.now) items.now chunks.now) ≡ true }
    ensures { ValuesLeft (Ok (values_of_kept (change_of (list_from list.now) items.now chunks.now) table)) result from.new to.new }
{
    let values = list_of(list).local_values_changes_kept(items, chunks, ValueTableId(table));
    keep_values(Ok(values), from, to)
}

#[unsafe(no_mangle)]
pub extern "C" fn hongsathep_insert_ref_count(
    tables: &[u64],
    list: &mut [u64],
    items: &mut [u64],
    chunks: &mut [u8],
    table: u16,
    index: u64,
    sub: u8,
    data: &[u8],
) -> u64
    ensures { InsertLeft (inserted RefCount (directory_from tables.now) (change_of (list_from list.old) items.old chunks.old) table index sub «data».now) list.old result list.new items.new chunks.new }
{
    insert(
        tables, list, items, chunks, RefCount, table, index, sub, data,
    )
}

#[unsafe(no_mangle)]
pub extern "C" fn hongsathep_insert_ref_count_kept(
    tables: &[u64],
    list: &mut [u64],
    items: &mut [u64],
    chunks: &mut [u8],
    table: u16,
    index: u64,
    sub: u8,
    data: &[u8],
) -> u64
    requires { change_kept (directory_from tables.now) (change_of (list_from list.old) items.old chunks.old) ≡ true }
    ensures { InsertLeft (inserted_kept RefCount (directory_from tables.now) (change_of (list_from list.old) items.old chunks.old) table index sub «data».now) list.old result list.new items.new chunks.new }
{
    insert_kept(
        tables, list, items, chunks, RefCount, table, index, sub, data,
    )
}

#[unsafe(no_mangle)]
pub extern "C" fn hongsathep_drop_ref_count_table(
    tables: &[u64],
    list: &mut [u64],
    items: &[u64],
    chunks: &[u8],
    table: u16,
) -> u64
    ensures { DropLeft (count_table_dropped (directory_from tables.now) (change_of (list_from list.old) items.now chunks.now) table) list.old result list.new }
{
    let directory = directory_of(tables);
    let done = list_of(list).drop_ref_count_table(directory, items, chunks, RefCountTableId(table));
    keep_changed(list, done)
}

#[unsafe(no_mangle)]
pub extern "C" fn hongsathep_drop_ref_count_table_kept(
    tables: &[u64],
    list: &mut [u64],
    items: &[u64],
    chunks: &[u8],
    table: u16,
) -> u64
    requires { change_kept (directory_from tables.now) (change_of (list_from list.old) items.now chunks.now) ≡ true }
    ensures { DropLeft (count_table_dropped_kept (directory_from tables.now) (change_of (list_from list.old) items.now chunks.now) table) list.old result list.new }
{
    let directory = directory_of(tables);
    let done = list_of(list).drop_ref_count_table_kept(
        directory,
        items,
        chunks,
        RefCountTableId(table),
    );
    keep_changed(list, done)
}

#[unsafe(no_mangle)]
pub extern "C" fn hongsathep_record_size(
    tables: &[u64],
    list: &[u64],
    items: &[u64],
    chunks: &[u8],
    size: &mut u64,
) -> u64
    ensures { SizeLeft (sized (directory_from tables.now) (change_of (list_from list.now) items.now chunks.now)) result size.new }
{
    let done = list_of(list).record_size(directory_of(tables), items, chunks);
    keep_size(done, size)
}

#[unsafe(no_mangle)]
pub extern "C" fn hongsathep_record_size_kept(
    list: &[u64],
    items: &[u64],
    chunks: &[u8],
    size: &mut u64,
) -> u64
    requires { change_ruled (change_of (list_from list.now) items.now chunks.now) ≡ true }
    ensures { SizeLeft (Ok (record_size (change_of (list_from list.now) items.now chunks.now))) result size.new }
{
    keep_size(Ok(list_of(list).record_size_kept(items, chunks)), size)
}

#[unsafe(no_mangle)]
pub extern "C" fn hongsathep_flush_to_file(
    tables: &[u64],
    list: &[u64],
    items: &[u64],
    chunks: &[u8],
    out: &mut [u8],
    size: &mut u64,
) -> u64
    ensures out { out.new ≡ (flush_to_file (directory_from tables.now) (change_of (list_from list.now) items.now chunks.now) out.old).output }
    ensures size { SizeLeft (flush_to_file (directory_from tables.now) (change_of (list_from list.now) items.now chunks.now) out.old).sized result size.new }
{
    let done = writer::flush_to_file(list_of(list), directory_of(tables), items, chunks, out);
    keep_size(done, size)
}

#[unsafe(no_mangle)]
pub extern "C" fn hongsathep_flush_to_file_kept(
    list: &[u64],
    items: &[u64],
    chunks: &[u8],
    out: &mut [u8],
    size: &mut u64,
) -> u64
    requires { change_ruled (change_of (list_from list.now) items.now chunks.now) ≡ true }
    ensures out { out.new ≡ (flush_to_file_kept (change_of (list_from list.now) items.now chunks.now) out.old).output }
    ensures size { SizeLeft (flush_to_file_kept (change_of (list_from list.now) items.now chunks.now) out.old).sized result size.new }
{
    let done = writer::flush_to_file_kept(list_of(list), items, chunks, out);
    keep_size(done, size)
}
