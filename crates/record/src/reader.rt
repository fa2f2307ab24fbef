// The reader: where it stands in a log, and its step to the next action.
ghost use Rattle.std.specs.Prelude.{◌≡◌, true, false, ◌+◌, ◌≤◌, length};
ghost use Rattle.answer.specs.Answer.{refusal};
ghost use Rattle.directory.specs.Directory.{directory_kept};
ghost use Rattle.directory.specs.declared.directory.Directory.{Directory};
ghost use Rattle.record.specs.Format.{read_at};
ghost use Rattle.record.specs.Next.{reader_at, plain, forward_to, reader_after, stepped, opened, opening_of, step_of, next_of};
ghost use Rattle.record.specs.Record.{inside, opening};

use super::action::LogAction;
use super::item::item_at;
use super::opening::opening_at;
use answer::{Answer, Refusal};
use directory::Directory;

// `inside` says whether a record was begun and not ended; then `record_id` is its id and, if validating, `crc32` the checksum's register
// over its bytes so far.
#[derive(Clone, Copy)]
pub struct LogReader {
    pub position: usize,
    pub record_id: u64,
    pub crc32: u32,
    pub validate: bool,
    pub inside: bool,
}

// An action that was read, its payload's place in the log, and the reader behind it.
#[derive(Clone, Copy)]
pub struct Stepped {
    pub action: LogAction,
    pub start: usize,
    pub length: usize,
    pub reader: LogReader,
}

impl LogReader {
    // A reader between records.
    pub fn new(position: usize, validate: bool) -> LogReader
        ensures { result ≡ reader_at position validate }
    {
        LogReader {
            position,
            record_id: 0,
            crc32: checksum::START,
            validate,
            inside: false,
        }
    }

    pub fn record_id(self) -> u64
        ensures { result ≡ self.record_id }
    {
        self.record_id
    }

    // The reader that leaves the checksum to whoever takes it over the whole record.
    pub fn unvalidated(self) -> LogReader
        ensures { result ≡ plain self }
    {
        LogReader {
            crc32: checksum::START,
            validate: false,
            ..self
        }
    }

    #[tactic(auto, unfolding(crate::specs::Next::forward_to))]
    fn forward(self, log: &[u8], end: usize) -> LogReader
        requires { (self.position ≤ end) × (end ≤ length log.now) }
        ensures { result ≡ forward_to log.now self end }
    {
        let crc32 = if self.validate {
            checksum::update(self.crc32, &log[self.position..end])
        } else {
            self.crc32
        };
        LogReader {
            position: end,
            crc32,
            ..self
        }
    }

    #[tactic(auto, unfolding(crate::specs::Next::reader_after))]
    fn after(self, log: &[u8], action: LogAction, end: usize) -> LogReader
        requires { (self.position ≤ end) × (end ≤ length log.now) }
        ensures { result ≡ reader_after log.now self action end }
    {
        if action.is_end() {
            LogReader {
                position: end,
                crc32: checksum::START,
                inside: false,
                ..self
            }
        } else {
            self.forward(log, end)
        }
    }

    // A refusal, told where the reader stands.
    fn refusal(self, answer: Answer) -> Refusal
        ensures { result ≡ refusal answer self.position }
    {
        Refusal::new(answer, self.position)
    }

    // Inside a record.
    fn step_inside(self, directory: &Directory, log: &[u8]) -> Result<Stepped, Refusal>
        requires { self.position ≤ length log.now }
        ensures { result ≡ stepped log.now self (read_at (inside directory.now self.validate self.crc32) self.position log.now) }
    {
        let read = item_at(directory, log, self.position, self.validate, self.crc32);
        let item = read.map_err(|answer| self.refusal(answer))?;
        Ok(Stepped {
            action: item.action,
            start: item.start,
            length: item.length,
            reader: self.after(log, item.action, item.start + item.length),
        })
    }

    // Between records.
    fn step_opening(self, log: &[u8]) -> Result<Stepped, Refusal>
        requires { self.position ≤ length log.now }
        ensures { result ≡ opened log.now self (read_at (opening self.validate) self.position log.now) }
    {
        let read = opening_at(log, self.position, self.validate);
        let record_id = read.map_err(|answer| self.refusal(answer))?;
        let begun = LogReader {
            record_id,
            crc32: checksum::START,
            inside: true,
            ..self
        };
        let end = self.position + 1 + 8;
        Ok(Stepped {
            action: LogAction::BeginRecord,
            start: end,
            length: 0,
            reader: begun.forward(log, end),
        })
    }

    // A record's opening, which needs no directory.
    #[tactic(auto, unfolding(crate::specs::Next::opening_of))]
    pub fn open(self, log: &[u8]) -> Result<Stepped, Refusal>
        ensures { result ≡ opening_of log.now self }
    {
        if log.len() < self.position {
            return Err(self.refusal(Answer::BadArgument));
        }
        self.step_opening(log)
    }

    // The next action under a directory that was tested already.
    #[tactic(auto, unfolding(crate::specs::Next::step_of))]
    pub fn next_kept(self, directory: Directory, log: &[u8]) -> Result<Stepped, Refusal>
        requires { directory_kept directory ≡ true }
        ensures { result ≡ step_of directory log.now self }
    {
        if log.len() < self.position {
            return Err(self.refusal(Answer::BadArgument));
        }
        if self.inside {
            self.step_inside(&directory, log)
        } else {
            self.step_opening(log)
        }
    }

    // The next action of the log.
    #[tactic(auto, unfolding(crate::specs::Next::next_of))]
    pub fn next(self, directory: Directory, log: &[u8]) -> Result<Stepped, Refusal>
        ensures { result ≡ next_of directory log.now self }
    {
        if directory.kept() {
            self.next_kept(directory, log)
        } else {
            Err(self.refusal(Answer::BadState))
        }
    }
}
