// The end of reading a record.
ghost use Rattle.std.specs.Prelude.{◌≡◌, true};
ghost use Rattle.directory.specs.Directory.{directory_kept};
ghost use Rattle.memory.specs.declared.span.Holder.TheVariants.{Shared};
ghost use Rattle.memory.specs.Parts.{parts_of, parts_kept};
ghost use Rattle.memory.specs.Overlays.{overlays_of};
ghost use Rattle.clearing.specs.EndRead.{record_again, clearable, end_read_by, end_read_of, end_read_of_of};

use super::clear::clear_rest;
use answer::{Answer, Refusal};
use directory::Directory;
use memory::{Holder, LogOverlays};

// `position` is behind the record.
#[derive(Clone, Copy)]
pub struct EndRead {
    pub position: usize,
    pub record_id: u64,
    pub next_record_id: u64,
    pub overlays: LogOverlays,
}

// Reads the record at a position again and takes its entries out of the overlays, where all of it was tested already.
pub fn end_read_kept(
    directory: Directory,
    log: &[u8],
    position: usize,
    overlays: LogOverlays,
    words: &mut [u64],
    bytes: &mut [u8],
    next: u64,
) -> Result<EndRead, Refusal>
    requires { (directory_kept directory ≡ true) × (parts_kept Shared (parts_of Shared overlays.counts words.old bytes.old) ≡ true) × (next ≡ 0 → ⊥) }
    ensures { end_read_of_of position overlays next result words.new bytes.new
        ≡ end_read_by position (overlays_of overlays words.old bytes.old) next (clearable (record_again directory log.now position)) }
{
    let whole = replay::check_record_in(&directory, log, position)?;
    let id = whole.opened.record_id;
    if id == answer::LAST_RECORD_ID {
        return Err(Refusal::new(Answer::UsedUp, whole.end));
    }
    let reader = whole.opened.unvalidated();
    let counts = clear_rest(&directory, log, reader, overlays.counts, words, bytes);
    Ok(EndRead {
        position: whole.end,
        record_id: id,
        next_record_id: next.max(id + 1),
        overlays: LogOverlays { counts, ..overlays },
    })
}

// The same, tested: 13 before anything is read.
pub fn end_read(
    directory: Directory,
    log: &[u8],
    position: usize,
    overlays: LogOverlays,
    words: &mut [u64],
    bytes: &mut [u8],
    next: u64,
) -> Result<EndRead, Refusal>
    ensures { end_read_of_of position overlays next result words.new bytes.new
        ≡ end_read_of directory log.now position (overlays_of overlays words.old bytes.old) next }
{
    if !directory.kept()
        || !memory::all_kept(Holder::Shared, overlays.counts, words, bytes)
        || next == 0
    {
        return Err(Refusal::new(Answer::BadState, position));
    }
    end_read_kept(directory, log, position, overlays, words, bytes, next)
}
