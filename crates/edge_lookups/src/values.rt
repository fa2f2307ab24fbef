// A value copied out of the memory that it lies in.
ghost use Rattle.std.specs.Prelude.{◌≡◌, true};
ghost use Rattle.directory.specs.declared.table.TableKind.TheVariants.{Value};
ghost use Rattle.keys.specs.Keys.{rank};
ghost use Rattle.memory.specs.Parts.{words_in, bytes_in};
ghost use Rattle.change.specs.Change.{change_of, change_ruled};
ghost use Rattle.query.specs.Query.{is_there, bytes_of, copied_over};
ghost use Rattle.host_words.specs.Change.{list_from};
ghost use Rattle.host_words.specs.Overlays.{overlays_from};
ghost use Rattle.edge_lookups.specs.Lookups.{shared_kept_of, value_look, value_listed_look, Copied, FoundLeft, CopyLeft};

use super::lookups::shared_kept;
use answer::Answer;
use change::LogChange;
use directory::{TableKind, ValueTableId};
use host_words::{list_of, overlays_of};
use memory::{Holder, LogOverlays};
use query::{Listed, Lookup, Shared};

// The values' parts of the shared memories, to be looked in.
fn shared_values<'a>(overlays: LogOverlays, words: &'a [u64], bytes: &'a [u8]) -> Shared<'a>
    requires { shared_kept_of Value overlays.counts words.now bytes.now ≡ true }
    ensures overlays { result.overlays ≡ overlays }
    ensures words { result.words.now ≡ words_in Holder.Shared Value words.now }
    ensures bytes { result.bytes.now ≡ bytes_in Holder.Shared Value bytes.now }
{
    Shared {
        overlays,
        words: Holder::Shared.words(TableKind::Value, words),
        bytes: Holder::Shared.bytes(TableKind::Value, bytes),
    }
}

// Behind 13.
fn copied_kept<'a>(
    overlays: LogOverlays,
    words: &'a [u64],
    bytes: &'a [u8],
    table: u16,
    index: u64,
    dest: &mut [u8],
) -> bool
    requires { shared_kept_of Value overlays.counts words.now bytes.now ≡ true }
    ensures told { result ≡ is_there (value_look overlays words.now bytes.now (rank table index)).entry }
    ensures copied { dest.new ≡ copied_over (bytes_of (value_look overlays words.now bytes.now (rank table index)).entry) dest.old }
{
    shared_values(overlays, words, bytes).value_kept(ValueTableId(table), index, dest)
}

fn copied<'a>(
    overlays: LogOverlays,
    words: &'a [u64],
    bytes: &'a [u8],
    table: u16,
    index: u64,
    dest: &mut [u8],
) -> Result<bool, Answer>
    ensures told { Copied (value_look overlays words.now bytes.now (rank table index)) result }
    ensures copied { dest.new ≡ copied_over (bytes_of (value_look overlays words.now bytes.now (rank table index)).entry) dest.old }
{
    if !shared_kept(TableKind::Value, overlays.counts, words, bytes) {
        return Err(Answer::BadState);
    }
    Ok(copied_kept(overlays, words, bytes, table, index, dest))
}

fn copied_listed_kept<'a>(
    list: LogChange,
    items: &'a [u64],
    chunks: &'a [u8],
    overlays: LogOverlays,
    words: &'a [u64],
    bytes: &'a [u8],
    table: u16,
    index: u64,
    dest: &mut [u8],
) -> bool
    requires { (change_ruled (change_of list items.now chunks.now) ≡ true) × (shared_kept_of Value overlays.counts words.now bytes.now ≡ true) }
    ensures told { result ≡ is_there (value_listed_look list items.now chunks.now overlays words.now bytes.now (rank table index)).entry }
    ensures copied { dest.new ≡ copied_over (bytes_of (value_listed_look list items.now chunks.now overlays words.now bytes.now (rank table index)).entry) dest.old }
{
    let listed = Listed {
        list,
        words: items,
        bytes: chunks,
        shared: shared_values(overlays, words, bytes),
    };
    listed.value_kept(ValueTableId(table), index, dest)
}

fn copied_listed<'a>(
    list: LogChange,
    items: &'a [u64],
    chunks: &'a [u8],
    overlays: LogOverlays,
    words: &'a [u64],
    bytes: &'a [u8],
    table: u16,
    index: u64,
    dest: &mut [u8],
) -> Result<bool, Answer>
    ensures told { Copied (value_listed_look list items.now chunks.now overlays words.now bytes.now (rank table index)) result }
    ensures copied { dest.new ≡ copied_over (bytes_of (value_listed_look list items.now chunks.now overlays words.now bytes.now (rank table index)).entry) dest.old }
{
    if !list.ruled(items, chunks) {
        return Err(Answer::BadState);
    }
    if !shared_kept(TableKind::Value, overlays.counts, words, bytes) {
        return Err(Answer::BadState);
    }
    Ok(copied_listed_kept(
        list, items, chunks, overlays, words, bytes, table, index, dest,
    ))
}

// Whether there was a value, 0 where the copy was refused.
fn keep_copied(done: Result<bool, Answer>, found: &mut u64) -> u64
    ensures { FoundLeft done result found.new }
{
    match done {
        Ok(there) => {
            *found = u64::from(there);
            0
        }
        Err(answer) => {
            *found = 0;
            u64::from(answer.number())
        }
    }
}

#[unsafe(no_mangle)]
pub extern "C" fn hongsathep_value<'a>(
    overlays: &[u64],
    words: &'a [u64],
    bytes: &'a [u8],
    table: u16,
    index: u64,
    dest: &mut [u8],
    found: &mut u64,
) -> u64
    ensures { CopyLeft (value_look (overlays_from overlays.now) words.now bytes.now (rank table index)) dest.old result dest.new found.new }
{
    let done = copied(overlays_of(overlays), words, bytes, table, index, dest);
    keep_copied(done, found)
}

#[unsafe(no_mangle)]
pub extern "C" fn hongsathep_value_kept<'a>(
    overlays: &[u64],
    words: &'a [u64],
    bytes: &'a [u8],
    table: u16,
    index: u64,
    dest: &mut [u8],
    found: &mut u64,
) -> u64
    requires { shared_kept_of Value (overlays_from overlays.now).counts words.now bytes.now ≡ true }
    ensures { CopyLeft (value_look (overlays_from overlays.now) words.now bytes.now (rank table index)) dest.old result dest.new found.new }
{
    let there = copied_kept(overlays_of(overlays), words, bytes, table, index, dest);
    keep_copied(Ok(there), found)
}

#[unsafe(no_mangle)]
pub extern "C" fn hongsathep_value_listed<'a>(
    list: &[u64],
    items: &'a [u64],
    chunks: &'a [u8],
    overlays: &[u64],
    words: &'a [u64],
    bytes: &'a [u8],
    table: u16,
    index: u64,
    dest: &mut [u8],
    found: &mut u64,
) -> u64
    ensures { CopyLeft (value_listed_look (list_from list.now) items.now chunks.now (overlays_from overlays.now) words.now bytes.now (rank table index)) dest.old result dest.new found.new }
{
    let l = list_of(list);
    let o = overlays_of(overlays);
    let done = copied_listed(l, items, chunks, o, words, bytes, table, index, dest);
    keep_copied(done, found)
}

#[unsafe(no_mangle)]
pub extern "C" fn hongsathep_value_listed_kept<'a>(
    list: &[u64],
    items: &'a [u64],
    chunks: &'a [u8],
    overlays: &[u64],
    words: &'a [u64],
    bytes: &'a [u8],
    table: u16,
    index: u64,
    dest: &mut [u8],
    found: &mut u64,
) -> u64
    requires { (change_ruled (change_of (list_from list.now) items.now chunks.now) ≡ true) × (shared_kept_of Value (overlays_from overlays.now).counts words.now bytes.now ≡ true) }
    ensures { CopyLeft (value_listed_look (list_from list.now) items.now chunks.now (overlays_from overlays.now) words.now bytes.now (rank table index)) dest.old result dest.new found.new }
{
    let l = list_of(list);
    let o = overlays_of(overlays);
    let there = copied_listed_kept(l, items, chunks, o, words, bytes, table, index, dest);
    keep_copied(Ok(there), found)
}
