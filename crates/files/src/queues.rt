// The queues by value, of numbers alone, and the test of their rules.
ghost use Rattle.std.specs.Prelude.{◌≡◌, true, ◌+◌, ◌≤◌};
ghost use Rattle.std.specs.Bool.{then_some};
ghost use Rattle.numbers.specs.Queue.{list_of};
ghost use Rattle.files.specs.Queues.{appending_size, files_of, file_count, room_kept, queues_kept};
ghost use Rattle.files.specs.Moves.{no_appending, appending_file, no_reading, reading_file, no_files};

use numbers::NumberQueue;

// The file that records are appended to, if there is one.
#[derive(Clone, Copy)]
pub struct Appending {
    pub some: bool,
    pub id: u64,
    pub size: u64,
}

// The file being read, if there is one.
#[derive(Clone, Copy)]
pub struct Reading {
    pub some: bool,
    pub id: u64,
}

// Beside each number of the replay queue, in the same place of `replay_ids`, stands the id of its file's first record.
#[derive(Clone, Copy)]
pub struct Queues {
    pub appending: Appending,
    pub read_queue: NumberQueue,
    pub reading: Reading,
    pub cleanup_queue: NumberQueue,
    pub log_pool: NumberQueue,
    pub replay_queue: NumberQueue,
    pub replay_ids: [u64; 64],
    pub next_log_id: u32,
    pub dirty: bool,
}

impl Appending {
    pub(crate) fn none() -> Appending
        ensures { result ≡ no_appending }
    {
        Appending {
            some: false,
            id: 0,
            size: 0,
        }
    }

    pub(crate) fn file(id: u64, size: u64) -> Appending
        ensures { result ≡ appending_file id size }
    {
        Appending {
            some: true,
            id,
            size,
        }
    }

    // The file's number, if there is one.
    pub(crate) fn number(self) -> Option<u64>
        ensures { result ≡ then_some self.some self.id }
    {
        self.some.then_some(self.id)
    }
}

impl Reading {
    pub(crate) fn none() -> Reading
        ensures { result ≡ no_reading }
    {
        Reading { some: false, id: 0 }
    }

    pub(crate) fn file(id: u64) -> Reading
        ensures { result ≡ reading_file id }
    {
        Reading { some: true, id }
    }

    // The file's number, if there is one.
    pub(crate) fn number(self) -> Option<u64>
        ensures { result ≡ then_some self.some self.id }
    {
        self.some.then_some(self.id)
    }
}

impl Queues {
    pub const MAX_LOG_POOL_SIZE: usize = 16;

    // No file; dirty, as at open.
    pub fn new() -> Queues
        ensures { result ≡ no_files }
    {
        Queues {
            appending: Appending::none(),
            read_queue: NumberQueue::new(),
            reading: Reading::none(),
            cleanup_queue: NumberQueue::new(),
            log_pool: NumberQueue::new(),
            replay_queue: NumberQueue::new(),
            replay_ids: [0u64; 64],
            next_log_id: 0,
            dirty: true,
        }
    }

    #[tactic(auto, unfolding(crate::specs::Queues::appending_size))]
    pub(crate) fn size(self) -> u64
        ensures { result ≡ appending_size self }
    {
        if self.appending.some {
            self.appending.size
        } else {
            0
        }
    }

    #[tactic(auto, unfolding(crate::specs::Queues::file_count))]
    pub(crate) fn file_count(self) -> usize
        requires { (self.read_queue.count ≤ 64) × (self.cleanup_queue.count ≤ 64) × (self.log_pool.count ≤ 16) × (self.replay_queue.count ≤ 64) }
        ensures { result ≡ file_count self }
    {
        usize::from(self.appending.some)
            + self.read_queue.count
            + usize::from(self.reading.some)
            + self.cleanup_queue.count
            + self.log_pool.count
            + self.replay_queue.count
    }

    #[tactic(auto, unfolding(crate::specs::Queues::room_kept))]
    fn room_kept(self) -> bool
        ensures { result ≡ room_kept self }
    {
        self.read_queue.count <= 64
            && self.cleanup_queue.count <= 64
            && self.log_pool.count <= Queues::MAX_LOG_POOL_SIZE
            && self.replay_queue.count <= 64
            && self.file_count() <= 64
    }

    // All file numbers, one behind the other, so that one test sees them all.
    fn gather(self) -> NumberQueue
        requires { room_kept self ≡ true }
        ensures { (result.count ≤ 64) × (list_of result ≡ files_of self) }
    {
        NumberQueue::new()
            .push_if(self.appending.number())
            .append(self.read_queue)
            .push_if(self.reading.number())
            .append(self.cleanup_queue)
            .append(self.log_pool)
            .append(self.replay_queue)
    }

    // Whether the queues keep every rule; where they don't, a call that is handed them answers 13.
    #[tactic(auto, using(crate::proofs::Rule::room_facts), unfolding(crate::specs::Queues::queues_kept))]
    pub fn kept(self) -> bool
        ensures { result ≡ queues_kept self }
    {
        if !self.room_kept() {
            return false;
        }
        let gathered = self.gather();
        let files = &gathered.numbers[..gathered.count];
        let pool = &self.log_pool.numbers[..self.log_pool.count];
        numbers::all_below(files, u64::from(self.next_log_id))
            && numbers::no_twice(files)
            && numbers::rises(pool)
            && self.size() < 9223372036854775808
    }
}
