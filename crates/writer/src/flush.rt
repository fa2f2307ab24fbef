// `flush_to_file`: log.rs lines 380 to 454.
ghost use Rattle.std.specs.Prelude.{◌≡◌, true, ◌≤◌, length};
ghost use Rattle.change.specs.Change.{change_of, change_ruled};
ghost use Rattle.change.specs.Ruled.{list_of};
ghost use Rattle.output.specs.Put.{Wrote, put};
ghost use Rattle.writer.specs.Bytes.{record_of};
ghost use Rattle.writer.specs.Flush.{flushed_of, flush_to_file_kept, flush_to_file};
ghost use Rattle.writer.specs.Inner.{inserts_of, changes_of};

use super::drops::put_drops;
use super::kinds::put_kind;
use answer::{Answer, Tag};
use change::{LogChange, Ruled};
use directory::{Directory, TableKind};

// From the begin tag to the last reference count.
fn put_inserts(out: &mut [u8], lent: Ruled) -> usize
    requires { length (inserts_of (list_of lent)) ≤ length out.old }
    ensures { Wrote out.old 0 (inserts_of (list_of lent.entry)) out.new result }
{
    let a = output::put_u8(out, 0, Tag::BEGIN_RECORD.0);
    let b = output::put_u64(out, a, lent.list.record_id);
    let c = put_kind(out, b, TableKind::Index, lent);
    let d = put_kind(out, c, TableKind::Value, lent);
    put_kind(out, d, TableKind::RefCount, lent)
}

// To the last drop.
fn put_changes(out: &mut [u8], lent: Ruled) -> usize
    requires { length (changes_of (list_of lent)) ≤ length out.old }
    ensures { Wrote out.old 0 (changes_of (list_of lent.entry)) out.new result }
{
    let a = put_inserts(out, lent);
    let b = put_drops(out, a, Tag::DROP_TABLE, lent.list.dropped_tables);
    put_drops(
        out,
        b,
        Tag::DROP_REF_COUNT_TABLE,
        lent.list.dropped_ref_count_tables,
    )
}

// The checksum is taken once, over all that was written.
fn put_record(out: &mut [u8], lent: Ruled)
    requires { length (record_of (list_of lent)) ≤ length out.old }
    ensures { out.new ≡ put out.old 0 (record_of (list_of lent.entry)) }
{
    let a = put_changes(out, lent);
    let b = output::put_u8(out, a, Tag::END_RECORD.0);
    let sum = checksum::checksum(&out[..b]);
    output::put_u32(out, b, sum);
}

// Behind 13: the length is compared before a byte is written.
pub fn flush_to_file_kept(
    list: LogChange,
    words: &[u64],
    bytes: &[u8],
    out: &mut [u8],
) -> Result<usize, Answer>
    requires { change_ruled (change_of list words.now bytes.now) ≡ true }
    ensures { flushed_of result out.new ≡ flush_to_file_kept (change_of list words.now bytes.now) out.old }
{
    let lent = Ruled { list, words, bytes };
    let size = lent.record_size();
    if out.len() < size {
        return Err(Answer::ShortOutput);
    }
    put_record(out, lent);
    Ok(size)
}

// Writes the list as a record at the output's front, and answers with its length.
pub fn flush_to_file(
    list: LogChange,
    directory: Directory,
    words: &[u64],
    bytes: &[u8],
    out: &mut [u8],
) -> Result<usize, Answer>
    ensures { flushed_of result out.new ≡ flush_to_file directory (change_of list words.now bytes.now) out.old }
{
    if !list.kept(directory, words, bytes) {
        return Err(Answer::BadState);
    }
    flush_to_file_kept(list, words, bytes, out)
}
