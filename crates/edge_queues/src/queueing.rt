// The file queues' calls.
ghost use Rattle.std.specs.Prelude.{◌≡◌, true, ltb, length};
ghost use Rattle.std.specs.Option.{is_some, unwrap_or};
ghost use Rattle.answer.specs.Answer.{number_of, answer_in};
ghost use Rattle.numbers.specs.Numbers.{over};
ghost use Rattle.found.specs.Names.{said_by};
ghost use Rattle.found.specs.Logs.{removed};
ghost use Rattle.files.specs.Queues.{queues_kept};
ghost use Rattle.files.specs.Moves.{no_files};
ghost use Rattle.files.specs.Open.{remove_count_of};
ghost use Rattle.files.specs.Calls.{flush_one_kept, flush_one, replay_record_id, replay_next_kept, replay_next, clean_logs_kept, clean_logs, kill_logs_kept, kill_logs};
ghost use Rattle.host_words.specs.Head.{head_room, head_after};
ghost use Rattle.host_queues.specs.Queues.{queues_size, queues_from, queues_words};
ghost use Rattle.edge_queues.specs.Queueing.{open_in, opened_words, no_reader, read_next_in, read_next_kept_in, FlushLeft, ReplayLeft, KillLeft, CleanLeft, ReadLeft};

use answer::Answer;
use files::{Cleaned, Flushed, Killed, Opened, Queues, ReadNext, ReplayNext};
use host_queues::{keep_queues, queues_of, queues_words};
use host_words::{keep, make, reader_words};
use record::LogReader;

#[unsafe(no_mangle)]
pub extern "C" fn hongsathep_queues_new(queues: &mut [u64]) -> u64
    ensures answer { result ≡ number_of (head_room queues_size queues.old) }
    ensures queues { queues.new ≡ head_after queues_size (number_of (head_room queues_size queues.old)) queues.old (queues_words no_files) }
{
    make(queues, &queues_words(Queues::new()))
}

#[tactic(auto, unfolding(crate::specs::Queueing::open_in))]
fn opened<'a>(
    names: &'a [u8],
    name_lengths: &'a [usize],
    lengths: &'a [u64],
    heads: &'a [u8],
    remove: &mut [u64],
    words: usize,
) -> Result<Opened, Answer>
    ensures opened { result ≡ open_in names.now name_lengths.now lengths.now heads.now (length remove.old) words }
    ensures removed { remove.new ≡ over remove.old (Rattle.found.specs.Logs.removed (said_by names.now name_lengths.now) lengths.now) (remove_count_of result) }
{
    if words != 331 {
        return Err(Answer::BadState);
    }
    Queues::open(names, name_lengths, lengths, heads, remove)
}

#[unsafe(no_mangle)]
pub extern "C" fn hongsathep_open<'a>(
    names: &'a [u8],
    name_lengths: &'a [usize],
    lengths: &'a [u64],
    heads: &'a [u8],
    remove: &mut [u64],
    removed: &mut u64,
    queues: &mut [u64],
) -> u64
    ensures answer { result ≡ number_of (answer_in (open_in names.now name_lengths.now lengths.now heads.now (length remove.old) (length queues.old))) }
    ensures remove { remove.new ≡ over remove.old (Rattle.found.specs.Logs.removed (said_by names.now name_lengths.now) lengths.now) (remove_count_of (open_in names.now name_lengths.now lengths.now heads.now (length remove.old) (length queues.old))) }
    ensures removed { removed.new ≡ remove_count_of (open_in names.now name_lengths.now lengths.now heads.now (length remove.old) (length queues.old)) }
    ensures queues { queues.new ≡ opened_words (open_in names.now name_lengths.now lengths.now heads.now (length remove.old) (length queues.old)) queues.old }
{
    match opened(names, name_lengths, lengths, heads, remove, queues.len()) {
        Ok(o) => {
            *removed = o.remove_count as u64;
            keep_queues(queues, Answer::Done, &o.queues)
        }
        Err(answer) => {
            *removed = 0;
            u64::from(answer.number())
        }
    }
}

// What a call hands back, stored where the host lent room for it. One for both doors.
fn keep_flush(queues: &mut [u64], done: Flushed, moved: &mut u64, number: &mut u64) -> u64
    ensures { FlushLeft done queues.old result queues.new moved.new number.new }
{
    *moved = u64::from(done.moved.is_some());
    *number = done.moved.unwrap_or(0);
    keep_queues(queues, done.answer, &done.queues)
}

fn keep_replay(queues: &mut [u64], done: ReplayNext, found: &mut u64, number: &mut u64) -> u64
    ensures { ReplayLeft done queues.old result queues.new found.new number.new }
{
    *found = u64::from(done.number.is_some());
    *number = done.number.unwrap_or(0);
    keep_queues(queues, done.answer, &done.queues)
}

fn keep_killed(queues: &mut [u64], done: Killed, remove: &mut [u64; 64], removed: &mut u64) -> u64
    ensures { KillLeft done queues.old result queues.new remove.new removed.new }
{
    remove.copy_from_slice(&done.remove.numbers);
    *removed = done.remove.count as u64;
    keep_queues(queues, done.answer, &done.queues)
}

fn keep_cleaned(
    queues: &mut [u64],
    done: Cleaned,
    more: &mut u64,
    empty: &mut [u64; 64],
    emptied: &mut u64,
    remove: &mut [u64; 64],
    removed: &mut u64,
) -> u64
    ensures { CleanLeft done queues.old result queues.new more.new empty.new emptied.new remove.new removed.new }
{
    *more = u64::from(done.more);
    empty.copy_from_slice(&done.empty.numbers);
    *emptied = done.empty.count as u64;
    remove.copy_from_slice(&done.remove.numbers);
    *removed = done.remove.count as u64;
    keep_queues(queues, done.answer, &done.queues)
}

// A refusal for the words lent for the reader, too many or too few.
fn no_reader(queues: Queues, position: usize, validate: bool) -> ReadNext
    ensures { result ≡ no_reader queues position validate }
{
    ReadNext {
        answer: Answer::BadState,
        number: 0,
        reader: LogReader::new(position, validate),
        queues,
    }
}

#[tactic(auto, unfolding(crate::specs::Queueing::read_next_in))]
fn read_next(queues: &[u64], log: &[u8], position: usize, validate: bool, words: usize) -> ReadNext
    ensures { result ≡ read_next_in queues.now log.now position validate words }
{
    let q = queues_of(queues);
    if words != 5 {
        return no_reader(q, position, validate);
    }
    q.read_next(log, position, validate)
}

#[tactic(auto, unfolding(crate::specs::Queueing::read_next_kept_in))]
fn read_next_kept(
    queues: &[u64],
    log: &[u8],
    position: usize,
    validate: bool,
    words: usize,
) -> ReadNext
    requires { queues_kept (queues_from queues.now) ≡ true }
    ensures { result ≡ read_next_kept_in queues.now log.now position validate words }
{
    let q = queues_of(queues);
    if words != 5 {
        return no_reader(q, position, validate);
    }
    q.read_next_kept(log, position, validate)
}

fn keep_read(queues: &mut [u64], done: ReadNext, number: &mut u64, reader: &mut [u64]) -> u64
    ensures { ReadLeft done queues.old result queues.new number.new reader.old reader.new }
{
    *number = done.number;
    keep(reader, done.answer, &reader_words(done.reader));
    keep_queues(queues, done.answer, &done.queues)
}

#[unsafe(no_mangle)]
pub extern "C" fn hongsathep_flush_one(
    queues: &mut [u64],
    min: u64,
    moved: &mut u64,
    number: &mut u64,
) -> u64
    ensures { FlushLeft (flush_one (queues_from queues.old) min) queues.old result queues.new moved.new number.new }
{
    let done = queues_of(queues).flush_one(min);
    keep_flush(queues, done, moved, number)
}

#[unsafe(no_mangle)]
pub extern "C" fn hongsathep_flush_one_kept(
    queues: &mut [u64],
    min: u64,
    moved: &mut u64,
    number: &mut u64,
) -> u64
    requires { queues_kept (queues_from queues.old) ≡ true }
    ensures { FlushLeft (flush_one_kept (queues_from queues.old) min) queues.old result queues.new moved.new number.new }
{
    let done = queues_of(queues).flush_one_kept(min);
    keep_flush(queues, done, moved, number)
}

#[unsafe(no_mangle)]
pub extern "C" fn hongsathep_replay_next(
    queues: &mut [u64],
    found: &mut u64,
    number: &mut u64,
) -> u64
    ensures { ReplayLeft (replay_next (queues_from queues.old)) queues.old result queues.new found.new number.new }
{
    let done = queues_of(queues).replay_next();
    keep_replay(queues, done, found, number)
}

#[unsafe(no_mangle)]
pub extern "C" fn hongsathep_replay_next_kept(
    queues: &mut [u64],
    found: &mut u64,
    number: &mut u64,
) -> u64
    requires { queues_kept (queues_from queues.old) ≡ true }
    ensures { ReplayLeft (replay_next_kept (queues_from queues.old)) queues.old result queues.new found.new number.new }
{
    let done = queues_of(queues).replay_next_kept();
    keep_replay(queues, done, found, number)
}

#[unsafe(no_mangle)]
pub extern "C" fn hongsathep_clean_logs(
    queues: &mut [u64],
    max: usize,
    more: &mut u64,
    empty: &mut [u64; 64],
    emptied: &mut u64,
    remove: &mut [u64; 64],
    removed: &mut u64,
) -> u64
    ensures { CleanLeft (clean_logs (queues_from queues.old) max) queues.old result queues.new more.new empty.new emptied.new remove.new removed.new }
{
    let done = queues_of(queues).clean_logs(max);
    keep_cleaned(queues, done, more, empty, emptied, remove, removed)
}

#[unsafe(no_mangle)]
pub extern "C" fn hongsathep_clean_logs_kept(
    queues: &mut [u64],
    max: usize,
    more: &mut u64,
    empty: &mut [u64; 64],
    emptied: &mut u64,
    remove: &mut [u64; 64],
    removed: &mut u64,
) -> u64
    requires { queues_kept (queues_from queues.old) ≡ true }
    ensures { CleanLeft (clean_logs_kept (queues_from queues.old) max) queues.old result queues.new more.new empty.new emptied.new remove.new removed.new }
{
    let done = queues_of(queues).clean_logs_kept(max);
    keep_cleaned(queues, done, more, empty, emptied, remove, removed)
}

#[unsafe(no_mangle)]
pub extern "C" fn hongsathep_kill_logs(
    queues: &mut [u64],
    remove: &mut [u64; 64],
    removed: &mut u64,
) -> u64
    ensures { KillLeft (kill_logs (queues_from queues.old)) queues.old result queues.new remove.new removed.new }
{
    let done = queues_of(queues).kill_logs();
    keep_killed(queues, done, remove, removed)
}

#[unsafe(no_mangle)]
pub extern "C" fn hongsathep_kill_logs_kept(
    queues: &mut [u64],
    remove: &mut [u64; 64],
    removed: &mut u64,
) -> u64
    requires { queues_kept (queues_from queues.old) ≡ true }
    ensures { KillLeft (kill_logs_kept (queues_from queues.old)) queues.old result queues.new remove.new removed.new }
{
    let done = queues_of(queues).kill_logs_kept();
    keep_killed(queues, done, remove, removed)
}

#[unsafe(no_mangle)]
pub extern "C" fn hongsathep_read_next(
    queues: &mut [u64],
    log: &[u8],
    position: usize,
    validate: bool,
    number: &mut u64,
    reader: &mut [u64],
) -> u64
    ensures { ReadLeft (read_next_in queues.old log.now position validate (length reader.old)) queues.old result queues.new number.new reader.old reader.new }
{
    let done = read_next(queues, log, position, validate, reader.len());
    keep_read(queues, done, number, reader)
}

#[unsafe(no_mangle)]
pub extern "C" fn hongsathep_read_next_kept(
    queues: &mut [u64],
    log: &[u8],
    position: usize,
    validate: bool,
    number: &mut u64,
    reader: &mut [u64],
) -> u64
    requires { queues_kept (queues_from queues.old) ≡ true }
    ensures { ReadLeft (read_next_kept_in queues.old log.now position validate (length reader.old)) queues.old result queues.new number.new reader.old reader.new }
{
    let done = read_next_kept(queues, log, position, validate, reader.len());
    keep_read(queues, done, number, reader)
}

// Whether there is a file to replay; its first id.
#[unsafe(no_mangle)]
pub extern "C" fn hongsathep_replay_record_id(queues: &[u64], id: &mut u64) -> bool
    ensures found { result ≡ is_some (replay_record_id (queues_from queues.now)) }
    ensures id { id.new ≡ unwrap_or (replay_record_id (queues_from queues.now)) 0 }
{
    let first = host_queues::replay_record_id(queues);
    *id = first.unwrap_or(0);
    first.is_some()
}

#[unsafe(no_mangle)]
pub extern "C" fn hongsathep_num_dirty_logs(queues: &[u64]) -> usize
    ensures { result ≡ (queues_from queues.now).cleanup_queue.count }
{
    host_queues::num_dirty_logs(queues)
}

#[unsafe(no_mangle)]
pub extern "C" fn hongsathep_has_log_files_to_read(queues: &[u64]) -> bool
    ensures { result ≡ ltb 0 (queues_from queues.now).read_queue.count }
{
    host_queues::has_log_files_to_read(queues)
}
