// The end of a record: log.rs lines 844 to 899.
ghost use Rattle.std.specs.Prelude.{◌≡◌, true};
ghost use Rattle.ending.specs.EndRecord.{handed_of, handed_kept, end_state_of, end_record};

use super::handed::Handed;
use answer::Answer;
use change::LogChange;
use directory::Directory;
use files::{FileSource, Queues, Taken};
use memory::LogOverlays;

// The record's length, and the file that it belongs at the end of.
#[derive(Clone, Copy)]
pub struct Ended {
    pub length: usize,
    pub source: FileSource,
    pub number: u64,
    pub overlays: LogOverlays,
    pub queues: Queues,
}

// Behind 13: nothing is written or put before all was tested.
pub fn end_record_kept<'a>(
    directory: Directory,
    list: LogChange,
    list_words: &'a [u64],
    list_bytes: &'a [u8],
    overlays: LogOverlays,
    words: &mut [u64],
    bytes: &mut [u8],
    queues: Queues,
    next: u64,
    out: &mut [u8],
) -> Result<Ended, Answer>
    requires { handed_kept directory (handed_of list list_words.now list_bytes.now overlays words.old bytes.old queues next out.old) ≡ true }
    ensures { end_state_of overlays queues result words.new bytes.new out.new
        ≡ end_record directory (handed_of list list_words.now list_bytes.now overlays words.old bytes.old queues next out.old) }
{
    let handed = Handed {
        list,
        list_words,
        list_bytes,
        overlays,
        words,
        bytes,
        queues,
        next,
    };
    let Taken {
        source,
        number,
        queues,
    } = handed.file(directory, out)?;
    // The output has the room: `file` alone tests it.
    let length = writer::flush_to_file_kept(list, list_words, list_bytes, out).unwrap_or(0);
    let overlays = putting::put_list(
        directory,
        list.record_id,
        list.counts,
        list_words,
        list_bytes,
        overlays,
        words,
        bytes,
    );
    Ok(Ended {
        length,
        source,
        number,
        overlays,
        queues,
    })
}

// Writes the record at the output's front and puts its entries over the shared ones; `next` is the next id. A refusal changes nothing.
pub fn end_record<'a>(
    directory: Directory,
    list: LogChange,
    list_words: &'a [u64],
    list_bytes: &'a [u8],
    overlays: LogOverlays,
    words: &mut [u64],
    bytes: &mut [u8],
    queues: Queues,
    next: u64,
    out: &mut [u8],
) -> Result<Ended, Answer>
    ensures { end_state_of overlays queues result words.new bytes.new out.new
        ≡ end_record directory (handed_of list list_words.now list_bytes.now overlays words.old bytes.old queues next out.old) }
{
    let handed = Handed {
        list,
        list_words,
        list_bytes,
        overlays,
        words,
        bytes,
        queues,
        next,
    };
    if !handed.kept(directory) {
        return Err(Answer::BadState);
    }
    end_record_kept(
        directory, list, list_words, list_bytes, overlays, words, bytes, queues, next, out,
    )
}
