// Records one behind the other.
ghost use Rattle.std.specs.Prelude.{◌≡◌, true, [], length};
ghost use Rattle.directory.specs.Directory.{image_length};
ghost use Rattle.replay.specs.Replay.{tables_kept};
ghost use Rattle.replay.specs.Run.{stops, run_in, run_of};

use super::one_record::{replay_in, tables_kept};
use answer::{Answer, Refusal};
use directory::{Directory, Layout};

// `position` is where the record not replayed begins, `fault_at` where the action at fault begins.
#[derive(Clone, Copy)]
pub struct Ran {
    pub answer: Answer,
    pub position: usize,
    pub count: u64,
    pub fault_at: usize,
}

// A stop with that refusal, at a position and after so many records.
fn stopped(refusal: Refusal, position: usize, count: u64) -> Ran
    ensures { result ≡ (stops refusal position count []).ran }
{
    Ran {
        answer: refusal.answer,
        position,
        count,
        fault_at: refusal.position,
    }
}

// A run under a directory that is lent.
fn run_in(layout: &Layout, log: &[u8], at: usize, expected: u64, image: &mut [u8]) -> Ran
    requires { length image.old ≡ image_length layout.now.directory }
    ensures told { result ≡ (run_in layout.now.directory log.now at expected 0 image.old).ran }
    ensures image { image.new ≡ (run_in layout.now.directory log.now at expected 0 image.old).image }
{
    let mut position = at;
    let mut id = expected;
    let mut count = 0;
    loop {
        match replay_in(layout, log, position, id, image) {
            Err(refusal) => return stopped(refusal, position, count),
            Ok(end) => {
                position = end;
                count += 1;
            }
        }
        if id == answer::LAST_RECORD_ID {
            return stopped(Refusal::new(Answer::UsedUp, position), position, count);
        }
        id += 1;
    }
}

// A run under a directory and an image that were tested already.
pub fn run_kept(d: Directory, log: &[u8], at: usize, expected: u64, image: &mut [u8]) -> Ran
    requires { tables_kept d image.old ≡ true }
    ensures told { result ≡ (run_in d log.now at expected 0 image.old).ran }
    ensures image { image.new ≡ (run_in d log.now at expected 0 image.old).image }
{
    run_in(&Layout::of(d), log, at, expected, image)
}

// Replays from a position, the expected id rising by 1, up to the first answer other than 0.
#[tactic(auto, unfolding(crate::specs::Run::run_of))]
pub fn run(d: Directory, log: &[u8], at: usize, expected: u64, image: &mut [u8]) -> Ran
    ensures told { result ≡ (run_of d log.now at expected image.old).ran }
    ensures image { image.new ≡ (run_of d log.now at expected image.old).image }
{
    if tables_kept(d, image) {
        run_kept(d, log, at, expected, image)
    } else {
        stopped(Refusal::new(Answer::BadState, at), at, 0)
    }
}
