// The file queues from words and back: any words load, those that are no queues as queues that break a rule.
#![tactic(auto)]

ghost use Rattle.std.specs.Prelude.{◌≡◌, true, ltb, length, get_or, IfSome};
ghost use Rattle.files.specs.Calls.{replay_record_id};
ghost use Rattle.host_words.specs.Head.{HeadLeft};
ghost use Rattle.host_queues.specs.Queues.{queues_size, queues_formed, queue_from, broken_queues, queues_in, queues_from, queue_words, front_words, behind_words, queues_words};
ghost use Rattle.host_queues.specs.Inner.{next_log_id_read};

use answer::Answer;
use files::{Appending, NumberQueue, Queues, Reading};
use words::copy_from_slice;

// How many numbers stand in a queue, and 64 numbers.
fn queue_of(words: &[u64]) -> NumberQueue
    requires { length words.now ≡ 65 }
    ensures { result ≡ queue_from words.now 0 }
{
    let mut numbers = [0; 64];
    numbers.copy_from_slice(&words[1..]);
    NumberQueue {
        count: words[0] as usize,
        numbers,
    }
}

// The next number, where the words are queues: there are 331, and each is within its field's range.
#[tactic(auto, unfolding(crate::specs::Queues::queues_formed))]
fn next_log_id_in(words: &[u64]) -> Option<u32>
    ensures is { result ≡ next_log_id_read words.now }
    ensures whole { IfSome result (λ next. (queues_formed words.now ≡ true) × (length words.now ≡ 331) × (next ≡ get_or words.now 329 0)) }
{
    if words.len() != 331 || words[0] > 1 || words[68] > 1 || words[330] > 1 {
        return None;
    }
    u32::try_from(words[329]).ok()
}

fn loaded(words: &[u64], next_log_id: u32) -> Queues
    requires whole { length words.now ≡ 331 }
    requires next { next_log_id ≡ get_or words.now 329 0 }
    ensures { result ≡ queues_in words.now }
{
    let mut replay_ids = [0; 64];
    replay_ids.copy_from_slice(&words[265..329]);
    Queues {
        appending: Appending {
            some: words[0] == 1,
            id: words[1],
            size: words[2],
        },
        read_queue: queue_of(&words[3..68]),
        reading: Reading {
            some: words[68] == 1,
            id: words[69],
        },
        cleanup_queue: queue_of(&words[70..135]),
        log_pool: queue_of(&words[135..200]),
        replay_queue: queue_of(&words[200..265]),
        replay_ids,
        next_log_id,
        dirty: words[330] == 1,
    }
}

fn broken() -> Queues
    ensures { result ≡ broken_queues }
{
    let mut q = Queues::new();
    q.read_queue.count = 65;
    q
}

#[tactic(auto, unfolding(crate::specs::Queues::queues_from))]
pub fn queues_of(words: &[u64]) -> Queues
    ensures { result ≡ queues_from words.now }
{
    match next_log_id_in(words) {
        Some(next_log_id) => loaded(words, next_log_id),
        None => broken(),
    }
}

// What the words are asked for alone: the queues aren't loaded for it.

#[tactic(auto, unfolding(crate::specs::Queues::queues_from))]
pub fn num_dirty_logs(words: &[u64]) -> usize
    ensures { result ≡ (queues_from words.now).cleanup_queue.count }
{
    match next_log_id_in(words) {
        Some(_) => words[70] as usize,
        None => 0,
    }
}

#[tactic(auto, unfolding(crate::specs::Queues::queues_from))]
pub fn has_log_files_to_read(words: &[u64]) -> bool
    ensures { result ≡ ltb 0 (queues_from words.now).read_queue.count }
{
    match next_log_id_in(words) {
        Some(_) => 0 < words[3],
        None => true,
    }
}

#[tactic(auto, unfolding(crate::specs::Queues::queues_from, files::specs::Calls::replay_record_id))]
pub fn replay_record_id(words: &[u64]) -> Option<u64>
    ensures { result ≡ replay_record_id (queues_from words.now) }
{
    match next_log_id_in(words) {
        Some(_) if 0 < words[200] => Some(words[265]),
        _ => None,
    }
}

fn put_queue(words: &mut [u64], q: &NumberQueue)
    requires { length words.old ≡ 65 }
    ensures words { words.new ≡ queue_words q.now }
    ensures whole { length q.now.numbers ≡ 64 }
{
    words[0] = q.count as u64;
    copy_from_slice(&mut words[1..], &q.numbers);
}

// The appending file, the read queue and the file being read.
fn put_front(words: &mut [u64], q: &Queues)
    requires { length words.old ≡ 70 }
    ensures words { words.new ≡ front_words q.now }
    ensures whole { length q.now.read_queue.numbers ≡ 64 }
{
    words[..3].copy_from_slice(&[
        u64::from(q.appending.some),
        q.appending.id,
        q.appending.size,
    ]);
    put_queue(&mut words[3..68], &q.read_queue);
    words[68..].copy_from_slice(&[u64::from(q.reading.some), q.reading.id]);
}

// Cleanup, pool and replay queue.
fn put_behind(words: &mut [u64], q: &Queues)
    requires { length words.old ≡ 195 }
    ensures words { words.new ≡ behind_words q.now }
    ensures whole { (length q.now.cleanup_queue.numbers ≡ 64) × (length q.now.log_pool.numbers ≡ 64) × (length q.now.replay_queue.numbers ≡ 64) }
{
    put_queue(&mut words[..65], &q.cleanup_queue);
    put_queue(&mut words[65..130], &q.log_pool);
    put_queue(&mut words[130..], &q.replay_queue);
}

fn put_queues(words: &mut [u64], q: &Queues)
    requires { length words.old ≡ 331 }
    ensures { words.new ≡ queues_words q.now }
{
    put_front(&mut words[..70], q);
    put_behind(&mut words[70..265], q);
    copy_from_slice(&mut words[265..329], &q.replay_ids);
    words[329..].copy_from_slice(&[u64::from(q.next_log_id), u64::from(q.dirty)]);
}

pub fn queues_words(q: Queues) -> [u64; 331]
    ensures { result ≡ queues_words q }
{
    let mut words = [0; 331];
    put_queues(&mut words, &q);
    words
}

// What a call answered, as a number; the words are then the queues that it left, where it answered 0 or 1. They are written in their place: an
// array of them would be copied there.
#[tactic(auto, unfolding(host_words::specs::Head::head_stored))]
pub fn keep_queues(words: &mut [u64], answer: Answer, q: &Queues) -> u64
    ensures { HeadLeft queues_size answer (queues_words q.now) words.old result words.new }
{
    let number = u64::from(answer.number());
    if words.len() == 331 && number < 2 {
        put_queues(words, q);
    }
    number
}
