// Files that are done with: emptied into the pool, or removed.
ghost use Rattle.std.specs.Prelude.{true, ◌≡◌};
ghost use Rattle.files.specs.Queues.{queues_kept};
ghost use Rattle.files.specs.Calls.{clean_logs_kept, not_cleaned, clean_logs, kill_logs_kept, kill_logs};

use super::queues::{Queues, Reading};
use answer::Answer;
use numbers::NumberQueue;

// Which files the host is to empty, and then which to remove, and whether cleanup still holds any.
#[derive(Clone, Copy)]
pub struct Cleaned {
    pub answer: Answer,
    pub more: bool,
    pub empty: NumberQueue,
    pub remove: NumberQueue,
    pub queues: Queues,
}

#[derive(Clone, Copy)]
pub struct Killed {
    pub answer: Answer,
    pub remove: NumberQueue,
    pub queues: Queues,
}

impl Queues {
    fn not_cleaned(self, answer: Answer) -> Cleaned
        ensures { result ≡ not_cleaned answer self }
    {
        Cleaned {
            answer,
            more: false,
            empty: NumberQueue::new(),
            remove: NumberQueue::new(),
            queues: self,
        }
    }

    pub fn clean_logs_kept(self, max: usize) -> Cleaned
        requires { queues_kept self ≡ true }
        ensures { result ≡ clean_logs_kept self max }
    {
        let cleanup = self.cleanup_queue;
        let empty = cleanup.first(max);
        let pool = self.log_pool.insert_all(empty);
        let mut q = self;
        q.cleanup_queue = cleanup.without_first(max);
        q.log_pool = pool.first(Queues::MAX_LOG_POOL_SIZE);
        Cleaned {
            answer: Answer::Done,
            more: max < cleanup.count,
            empty,
            remove: pool.without_first(Queues::MAX_LOG_POOL_SIZE),
            queues: q,
        }
    }

    #[tactic(auto, unfolding(crate::specs::Calls::clean_logs))]
    pub fn clean_logs(self, max: usize) -> Cleaned
        ensures { result ≡ clean_logs self max }
    {
        if !self.kept() {
            return self.not_cleaned(Answer::BadState);
        }
        self.clean_logs_kept(max)
    }

    pub fn kill_logs_kept(self) -> Killed
        requires { queues_kept self ≡ true }
        ensures { result ≡ kill_logs_kept self }
    {
        let remove = self.log_pool.push_if(self.reading.number());
        let mut q = self;
        q.log_pool = self.log_pool.clear();
        q.reading = Reading::none();
        Killed {
            answer: Answer::Done,
            remove,
            queues: q,
        }
    }

    #[tactic(auto, unfolding(crate::specs::Calls::kill_logs))]
    pub fn kill_logs(self) -> Killed
        ensures { result ≡ kill_logs self }
    {
        if !self.kept() {
            return Killed {
                answer: Answer::BadState,
                remove: NumberQueue::new(),
                queues: self,
            };
        }
        self.kill_logs_kept()
    }
}
