// The file that records are appended to: flushed to the read queue, taken from the pool or new.
ghost use Rattle.std.specs.Prelude.{◌≡◌, true, false, ◌+◌, ◌<◌};
ghost use Rattle.files.specs.Queues.{appending_size, queues_kept};
ghost use Rattle.files.specs.Moves.{appending_queued};
ghost use Rattle.files.specs.Calls.{not_flushed, flush_one_kept, flush_one, needs_new, file_set_full, lacks_number, files_used_up, took_from, taken_by, take_file_kept, take_file};

use super::queues::{Appending, Queues};
use answer::Answer;

// The number of the appending file, if it was moved.
#[derive(Clone, Copy)]
pub struct Flushed {
    pub answer: Answer,
    pub moved: Option<u64>,
    pub queues: Queues,
}

// Where the file for a record comes from: a file of the pool is empty and is opened, a new one is made.
#[derive(Clone, Copy)]
pub enum FileSource {
    Appending,
    Pool,
    New,
}

#[derive(Clone, Copy)]
pub struct Taken {
    pub source: FileSource,
    pub number: u64,
    pub queues: Queues,
}

impl Queues {
    fn not_flushed(self, answer: Answer) -> Flushed
        ensures { result ≡ not_flushed answer self }
    {
        Flushed {
            answer,
            moved: None,
            queues: self,
        }
    }

    #[tactic(auto, unfolding(crate::specs::Moves::appending_queued))]
    fn appending_queued(self) -> Queues
        requires { self.read_queue.count < 64 }
        ensures { result ≡ appending_queued self }
    {
        let mut q = self;
        q.read_queue = self.read_queue.push_back(self.appending.id);
        q.appending = Appending::none();
        q
    }

    #[tactic(auto, unfolding(crate::specs::Calls::flush_one_kept, crate::specs::Calls::flushes))]
    pub fn flush_one_kept(self, min: u64) -> Flushed
        requires { queues_kept self ≡ true }
        ensures { result ≡ flush_one_kept self min }
    {
        if self.size() <= min {
            return self.not_flushed(Answer::Done);
        }
        Flushed {
            answer: Answer::Done,
            moved: Some(self.appending.id),
            queues: self.appending_queued(),
        }
    }

    #[tactic(auto, unfolding(crate::specs::Calls::flush_one))]
    pub fn flush_one(self, min: u64) -> Flushed
        ensures { result ≡ flush_one self min }
    {
        if !self.kept() {
            return self.not_flushed(Answer::BadState);
        }
        self.flush_one_kept(min)
    }

    #[tactic(auto, unfolding(crate::specs::Calls::needs_new))]
    fn needs_new(self) -> bool
        ensures { result ≡ needs_new self }
    {
        !self.appending.some && self.log_pool.count == 0
    }

    #[tactic(auto, unfolding(crate::specs::Calls::file_set_full))]
    pub fn file_set_full(self) -> bool
        requires { queues_kept self ≡ true }
        ensures { result ≡ file_set_full self }
    {
        self.needs_new() && self.file_count() == 64
    }

    #[tactic(auto, unfolding(crate::specs::Calls::lacks_number))]
    fn lacks_number(self) -> bool
        ensures { result ≡ lacks_number self }
    {
        self.needs_new() && self.next_log_id == 4294967295
    }

    #[tactic(auto, unfolding(crate::specs::Calls::files_used_up))]
    pub fn files_used_up(self, length: u64) -> bool
        requires { queues_kept self ≡ true }
        ensures { result ≡ files_used_up self length }
    {
        self.lacks_number() || 9223372036854775808 - self.size() <= length
    }

    fn took(self, source: FileSource, number: u64) -> Taken
        ensures { result ≡ took_from source number self }
    {
        Taken {
            source,
            number,
            queues: self,
        }
    }

    // The file with that number, of that size with the record.
    fn grown(self, id: u64, size: u64) -> Queues
        ensures { result ≡ Rattle.files.specs.Calls.grown self id size }
    {
        let mut q = self;
        q.appending = Appending::file(id, size);
        q.dirty = true;
        q
    }

    // The file for a record of that length.
    #[tactic(auto, unfolding(crate::specs::Calls::taken_by))]
    fn taken(self, length: u64) -> Taken
        requires { (queues_kept self ≡ true) × (files_used_up self length ≡ false) }
        ensures { result ≡ taken_by self (appending_size self + length) }
    {
        let size = self.size() + length;
        if self.appending.some {
            let id = self.appending.id;
            return self.grown(id, size).took(FileSource::Appending, id);
        }
        let mut q = self;
        if self.log_pool.count == 0 {
            let id = u64::from(self.next_log_id);
            q.next_log_id = self.next_log_id + 1;
            return q.grown(id, size).took(FileSource::New, id);
        }
        let id = self.log_pool.front();
        q.log_pool = self.log_pool.without_first(1);
        q.grown(id, size).took(FileSource::Pool, id)
    }

    // What the end of a record of that length needs of the files.
    #[tactic(auto, unfolding(crate::specs::Calls::take_file_kept))]
    pub fn take_file_kept(self, length: u64) -> Result<Taken, Answer>
        requires { queues_kept self ≡ true }
        ensures { result ≡ take_file_kept self length }
    {
        if self.file_set_full() {
            return Err(Answer::NoRoom);
        }
        if self.files_used_up(length) {
            return Err(Answer::UsedUp);
        }
        Ok(self.taken(length))
    }

    #[tactic(auto, unfolding(crate::specs::Calls::take_file))]
    pub fn take_file(self, length: u64) -> Result<Taken, Answer>
        ensures { result ≡ take_file self length }
    {
        if !self.kept() {
            return Err(Answer::BadState);
        }
        self.take_file_kept(length)
    }
}
