// The calls that write a record, end it and clear it, of the same names.
ghost use Rattle.std.specs.Prelude.{◌≡◌};
ghost use Rattle.change.specs.Change.{change_of};
ghost use Rattle.memory.specs.Overlays.{overlays_of};
ghost use Rattle.writer.specs.Flush.{flushed_of, flush_to_file};
ghost use Rattle.clearing.specs.EndRead.{end_read_of_of, end_read_of};
ghost use Rattle.ending.specs.EndRecord.{handed_of, end_state_of, end_record};
ghost use Rattle.lent.specs.Lent.{gathered};

use super::slice::gather;
use answer::{Answer, Refusal};
use change::LogChange;
use clearing::EndRead;
use directory::TableDescription;
use ending::Ended;
use files::Queues;
use memory::LogOverlays;

pub fn flush_to_file(
    list: LogChange,
    tables: &[TableDescription],
    words: &[u64],
    bytes: &[u8],
    out: &mut [u8],
) -> Result<usize, Answer>
    ensures { flushed_of result out.new
        ≡ flush_to_file (gathered tables.now) (change_of list words.now bytes.now) out.old }
{
    writer::flush_to_file(list, gather(tables), words, bytes, out)
}

pub fn end_read(
    tables: &[TableDescription],
    log: &[u8],
    position: usize,
    overlays: LogOverlays,
    words: &mut [u64],
    bytes: &mut [u8],
    next: u64,
) -> Result<EndRead, Refusal>
    ensures { end_read_of_of position overlays next result words.new bytes.new
        ≡ end_read_of (gathered tables.now) log.now position (overlays_of overlays words.old bytes.old) next }
{
    clearing::end_read(gather(tables), log, position, overlays, words, bytes, next)
}

pub fn end_record<'a>(
    tables: &[TableDescription],
    list: LogChange,
    list_words: &'a [u64],
    list_bytes: &'a [u8],
    overlays: LogOverlays,
    words: &mut [u64],
    bytes: &mut [u8],
    queues: Queues,
    next: u64,
    out: &mut [u8],
) -> Result<Ended, Answer>
    ensures { end_state_of overlays queues result words.new bytes.new out.new
        ≡ end_record (gathered tables.now) (handed_of list list_words.now list_bytes.now overlays words.old bytes.old queues next out.old) }
{
    ending::end_record(
        gather(tables),
        list,
        list_words,
        list_bytes,
        overlays,
        words,
        bytes,
        queues,
        next,
        out,
    )
}
