// What the end of a record is refused for: 13, 11, 9 for overlays, 9 for files, 12, 10.
ghost use Rattle.std.specs.Prelude.{◌≡◌, true, []};
ghost use Rattle.ending.specs.EndRecord.{handed_kept};
ghost use Rattle.ending.specs.Inner.{handed_by, file_for};

use answer::Answer;
use change::LogChange;
use directory::Directory;
use files::{Queues, Taken};
use memory::{Holder, LogOverlays};

// What the call is handed, beside the directory and the output.
#[derive(Clone, Copy)]
pub struct Handed<'a> {
    pub list: LogChange,
    pub list_words: &'a [u64],
    pub list_bytes: &'a [u8],
    pub overlays: LogOverlays,
    pub words: &'a [u64],
    pub bytes: &'a [u8],
    pub queues: Queues,
    pub next: u64,
}

impl<'a> Handed<'a> {
    // Whether all of it keeps its rules.
    pub(crate) fn kept(self, directory: Directory) -> bool
        ensures { result ≡ handed_kept directory (handed_by self.entry []) }
    {
        self.list.kept(directory, self.list_words, self.list_bytes)
            && memory::all_kept(Holder::Shared, self.overlays.counts, self.words, self.bytes)
            && self.queues.kept()
            && self.next != 0
    }

    // The file for the record, or a refusal: nothing is written yet.
    pub(crate) fn file(self, directory: Directory, out: &'a [u8]) -> Result<Taken, Answer>
        requires { handed_kept directory (handed_by self out.now) ≡ true }
        ensures { result ≡ file_for directory (handed_by self.entry out.now) }
    {
        if self.list.record_id != self.next - 1 {
            return Err(Answer::NotNext);
        }
        if putting::any_crowded(
            self.list.counts,
            self.list_words,
            self.overlays.counts,
            self.words,
        ) {
            return Err(Answer::NoRoom);
        }
        let size = self.list.record_size_kept(self.list_words, self.list_bytes);
        let taken = self.queues.take_file_kept(size as u64)?;
        if out.len() < size {
            return Err(Answer::ShortOutput);
        }
        Ok(taken)
    }
}
