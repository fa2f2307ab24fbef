// The calls that write a record, end it and clear it, in the form that the script asks for.
use super::tables::Tables;
use answer::{Answer, Refusal};
use change::LogChange;
use clearing::EndRead;
use ending::Ended;
use files::Queues;
use memory::LogOverlays;

impl Tables {
    pub fn flush_to_file(
        &self,
        list: LogChange,
        words: &[u64],
        bytes: &[u8],
        out: &mut [u8],
    ) -> Result<usize, Answer> {
        if self.lent {
            lent::flush_to_file(list, self.shown(), words, bytes, out)
        } else {
            writer::flush_to_file(list, self.directory(), words, bytes, out)
        }
    }

    pub fn end_read(
        &self,
        log: &[u8],
        position: usize,
        overlays: LogOverlays,
        words: &mut [u64],
        bytes: &mut [u8],
        next: u64,
    ) -> Result<EndRead, Refusal> {
        if self.lent {
            lent::end_read(self.shown(), log, position, overlays, words, bytes, next)
        } else {
            let d = self.directory();
            clearing::end_read(d, log, position, overlays, words, bytes, next)
        }
    }

    pub fn end_record<'a>(
        &self,
        list: LogChange,
        list_words: &'a [u64],
        list_bytes: &'a [u8],
        overlays: LogOverlays,
        words: &mut [u64],
        bytes: &mut [u8],
        queues: Queues,
        next: u64,
        out: &mut [u8],
    ) -> Result<Ended, Answer> {
        if self.lent {
            lent::end_record(
                self.shown(),
                list,
                list_words,
                list_bytes,
                overlays,
                words,
                bytes,
                queues,
                next,
                out,
            )
        } else {
            ending::end_record(
                self.directory(),
                list,
                list_words,
                list_bytes,
                overlays,
                words,
                bytes,
                queues,
                next,
                out,
            )
        }
    }
}
