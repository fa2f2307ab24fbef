// The next record of the files that are read.
ghost use Rattle.std.specs.Prelude.{◌≡◌, true, ◌≤◌};
ghost use Rattle.files.specs.Queues.{queues_kept};
ghost use Rattle.files.specs.Moves.{front_read};
ghost use Rattle.files.specs.Read.{now_reading, not_read, read_by, read_next_kept, read_next};
ghost use Rattle.files.specs.Inner.{has_file};

use super::queues::{Queues, Reading};
use answer::{Answer, Refusal};
use record::{LogReader, Stepped};

// The file being read and the reader behind a record's opening.
#[derive(Clone, Copy)]
pub struct ReadNext {
    pub answer: Answer,
    pub number: u64,
    pub reader: LogReader,
    pub queues: Queues,
}

impl Queues {
    fn not_read(self, answer: Answer, reader: LogReader) -> ReadNext
        ensures { result ≡ not_read answer reader self }
    {
        ReadNext {
            answer,
            number: 0,
            reader,
            queues: self,
        }
    }

    #[tactic(auto, unfolding(crate::specs::Moves::front_read))]
    fn front_read(self) -> Queues
        requires { self.read_queue.count ≤ 64 }
        ensures { result ≡ front_read self }
    {
        let mut q = self;
        q.read_queue = self.read_queue.without_first(1);
        q.reading = Reading::file(self.read_queue.front());
        q
    }

    #[tactic(auto, unfolding(crate::specs::Read::now_reading))]
    fn now_reading(self) -> Queues
        requires { self.read_queue.count ≤ 64 }
        ensures { result ≡ now_reading self }
    {
        if self.reading.some {
            return self;
        }
        self.front_read()
    }

    // What an opening that was tried comes to.
    #[tactic(auto, unfolding(crate::specs::Read::read_by))]
    fn read(self, step: Result<Stepped, Refusal>, reader: LogReader) -> ReadNext
        requires { (queues_kept self ≡ true) × (has_file self ≡ true) }
        ensures { result ≡ read_by self reader step }
    {
        let q = self.now_reading();
        match step {
            Ok(s) => ReadNext {
                answer: Answer::Done,
                number: q.reading.id,
                reader: s.reader,
                queues: q,
            },
            Err(f) if f.answer == Answer::EndOfLog => {
                q.reading_cleaned().not_read(f.answer, reader)
            }
            Err(f) => self.not_read(f.answer, reader),
        }
    }

    pub fn read_next_kept(self, log: &[u8], position: usize, validate: bool) -> ReadNext
        requires { queues_kept self ≡ true }
        ensures { result ≡ read_next_kept self log.now position validate }
    {
        let reader = LogReader::new(position, validate);
        if self.reading.some {
            let step = reader.open(log);
            return self.read(step, reader);
        }
        if self.read_queue.count == 0 {
            return self.not_read(Answer::EndOfLog, reader);
        }
        let step = LogReader::new(0, validate).open(log);
        self.read(step, reader)
    }

    #[tactic(auto, unfolding(crate::specs::Read::read_next))]
    pub fn read_next(self, log: &[u8], position: usize, validate: bool) -> ReadNext
        ensures { result ≡ read_next self log.now position validate }
    {
        if !self.kept() {
            return self.not_read(Answer::BadState, LogReader::new(position, validate));
        }
        self.read_next_kept(log, position, validate)
    }
}
