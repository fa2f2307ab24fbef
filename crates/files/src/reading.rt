// The files that are read: the replay queue, the read queue, and the one being read.
ghost use Rattle.std.specs.Prelude.{◌≡◌, true, ◌+◌, ◌≤◌, ltb};
ghost use Rattle.numbers.specs.Numbers.{one_if};
ghost use Rattle.files.specs.Queues.{queues_kept};
ghost use Rattle.files.specs.Moves.{reading_cleaned, front_replayed, replay_cleaned};
ghost use Rattle.files.specs.Calls.{replay_record_id, no_replay, replay_next_kept, replay_next, clear_replay_logs_kept, clear_replay_logs};

use super::queues::{Queues, Reading};
use answer::Answer;
use numbers::NumberQueue;

// The number of the file to replay, if there was one.
#[derive(Clone, Copy)]
pub struct ReplayNext {
    pub answer: Answer,
    pub number: Option<u64>,
    pub queues: Queues,
}

#[derive(Clone, Copy)]
pub struct ReplayCleared {
    pub answer: Answer,
    pub queues: Queues,
}

impl Queues {
    pub fn num_dirty_logs(self) -> usize
        ensures { result ≡ self.cleanup_queue.count }
    {
        self.cleanup_queue.count
    }

    pub fn has_log_files_to_read(self) -> bool
        ensures { result ≡ ltb 0 self.read_queue.count }
    {
        0 < self.read_queue.count
    }

    // The id of the first record of the file that is replayed next.
    #[tactic(auto, unfolding(crate::specs::Calls::replay_record_id))]
    pub fn replay_record_id(self) -> Option<u64>
        ensures { result ≡ replay_record_id self }
    {
        if self.replay_queue.count == 0 {
            return None;
        }
        Some(self.replay_ids[0])
    }

    #[tactic(auto, unfolding(crate::specs::Moves::reading_cleaned))]
    pub(crate) fn reading_cleaned(self) -> Queues
        requires { self.cleanup_queue.count + one_if self.reading.some ≤ 64 }
        ensures { result ≡ reading_cleaned self }
    {
        let mut q = self;
        q.cleanup_queue = self.cleanup_queue.push_if(self.reading.number());
        q.reading = Reading::none();
        q
    }

    #[tactic(auto, unfolding(crate::specs::Moves::front_replayed))]
    fn front_replayed(self) -> Queues
        requires { self.replay_queue.count ≤ 64 }
        ensures { result ≡ front_replayed self }
    {
        let numbers = self.replay_ids;
        let ids = NumberQueue {
            count: self.replay_queue.count,
            numbers,
        };
        let mut q = self;
        q.replay_queue = self.replay_queue.without_first(1);
        let rest = ids.without_first(1).numbers;
        q.replay_ids = rest;
        q.reading = Reading::file(self.replay_queue.front());
        q
    }

    fn no_replay(self, answer: Answer) -> ReplayNext
        ensures { result ≡ no_replay answer self }
    {
        ReplayNext {
            answer,
            number: None,
            queues: self,
        }
    }

    #[tactic(auto, unfolding(crate::specs::Calls::replay_next_kept))]
    pub fn replay_next_kept(self) -> ReplayNext
        requires { queues_kept self ≡ true }
        ensures { result ≡ replay_next_kept self }
    {
        let q = self.reading_cleaned();
        if self.replay_queue.count == 0 {
            return q.no_replay(Answer::Done);
        }
        ReplayNext {
            answer: Answer::Done,
            number: Some(self.replay_queue.front()),
            queues: q.front_replayed(),
        }
    }

    #[tactic(auto, unfolding(crate::specs::Calls::replay_next))]
    pub fn replay_next(self) -> ReplayNext
        ensures { result ≡ replay_next self }
    {
        if !self.kept() {
            return self.no_replay(Answer::BadState);
        }
        self.replay_next_kept()
    }

    #[tactic(auto, unfolding(crate::specs::Moves::replay_cleaned))]
    fn replay_cleaned(self) -> Queues
        requires { self.cleanup_queue.count + self.replay_queue.count ≤ 64 }
        ensures { result ≡ replay_cleaned self }
    {
        let mut q = self;
        q.cleanup_queue = self.cleanup_queue.append(self.replay_queue);
        q.replay_queue = self.replay_queue.clear();
        q
    }

    // The queues' part: the overlays are another state.
    pub fn clear_replay_logs_kept(self) -> ReplayCleared
        requires { queues_kept self ≡ true }
        ensures { result ≡ clear_replay_logs_kept self }
    {
        let mut q = self.reading_cleaned().replay_cleaned();
        q.dirty = false;
        ReplayCleared {
            answer: Answer::Done,
            queues: q,
        }
    }

    #[tactic(auto, unfolding(crate::specs::Calls::clear_replay_logs))]
    pub fn clear_replay_logs(self) -> ReplayCleared
        ensures { result ≡ clear_replay_logs self }
    {
        if !self.kept() {
            return ReplayCleared {
                answer: Answer::BadState,
                queues: self,
            };
        }
        self.clear_replay_logs_kept()
    }
}
