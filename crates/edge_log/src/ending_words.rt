// The calls that touch several states: the beginning and the end of a record, clearing.
ghost use Rattle.std.specs.Prelude.{◌≡◌, true, length, Ok};
ghost use Rattle.answer.specs.Answer.{number_of, answer_in};
ghost use Rattle.directory.specs.Directory.{directory_kept};
ghost use Rattle.memory.specs.Parts.{parts_of, parts_kept};
ghost use Rattle.memory.specs.Overlays.{overlays_of, no_overlays, last_id_of};
ghost use Rattle.memory.specs.declared.span.Holder.TheVariants.{Shared};
ghost use Rattle.files.specs.Queues.{queues_kept};
ghost use Rattle.clearing.specs.EndRead.{record_again, clearable, end_read_by, end_read_of};
ghost use Rattle.ending.specs.EndRecord.{handed_of, handed_kept, end_record};
ghost use Rattle.log_calls.specs.Begin.{begun_next};
ghost use Rattle.log_calls.specs.ClearReplay.{logs_cleared_kept, logs_cleared};
ghost use Rattle.host_words.specs.Tables.{directory_from};
ghost use Rattle.host_words.specs.Head.{head_room, head_after};
ghost use Rattle.host_words.specs.Change.{list_from, counts_in};
ghost use Rattle.host_words.specs.Overlays.{overlays_size, overlays_from, overlays_words, overlays_left};
ghost use Rattle.host_queues.specs.Queues.{queues_from};
ghost use Rattle.edge_log.specs.Ending.{source_number, begin_in, begun_list, heads_of, ClearLeft, EndedLeft, ReadLeft, EndLeft};

use answer::{Answer, Refusal};
use clearing::EndRead;
use ending::Ended;
use files::{FileSource, Queues};
use host_queues::{keep_queues, queues_of};
use host_words::{directory_of, keep, list_of, list_words, make, overlays_of, overlays_words};
use log_calls::{Begun, LogsCleared};
use memory::LogOverlays;

#[unsafe(no_mangle)]
pub extern "C" fn hongsathep_overlays_new(overlays: &mut [u64]) -> u64
    ensures answer { result ≡ number_of (head_room overlays_size overlays.old) }
    ensures overlays { overlays.new ≡ head_after overlays_size (number_of (head_room overlays_size overlays.old)) overlays.old (overlays_words no_overlays) }
{
    make(overlays, &overlays_words(LogOverlays::new()))
}

#[unsafe(no_mangle)]
pub extern "C" fn hongsathep_last_record_id(overlays: &[u64], col: u64) -> u64
    ensures { result ≡ last_id_of (overlays_from overlays.now) col }
{
    overlays_of(overlays).last_record_id(col)
}

// Where a record's file comes from, as a number.
fn source_number(source: FileSource) -> u64
    ensures { result ≡ source_number source }
{
    match source {
        FileSource::Appending => 0,
        FileSource::Pool => 1,
        FileSource::New => 2,
    }
}

#[tactic(auto, unfolding(crate::specs::Ending::begin_in))]
fn begin(next: u64, words: usize) -> Result<Begun, Answer>
    ensures { result ≡ begin_in next words }
{
    if words != 38 {
        return Err(Answer::BadState);
    }
    log_calls::begin_record(next)
}

// What `end_record` hands back, stored where the host lent room for it; a refusal leaves the states that it was handed.
fn keep_ended(
    overlays: &mut [u64],
    queues: &mut [u64],
    done: Result<Ended, Answer>,
    o: LogOverlays,
    q: Queues,
    size: &mut u64,
    source: &mut u64,
    file: &mut u64,
) -> u64
    ensures { EndedLeft o q done (heads_of overlays.old queues.old) result (heads_of overlays.new queues.new) size.new source.new file.new }
{
    match done {
        Ok(ended) => {
            *size = ended.length as u64;
            *source = source_number(ended.source);
            *file = ended.number;
            keep(overlays, Answer::Done, &overlays_words(ended.overlays));
            keep_queues(queues, Answer::Done, &ended.queues)
        }
        Err(answer) => {
            *size = 0;
            *source = 0;
            *file = 0;
            keep(overlays, answer, &overlays_words(o));
            keep_queues(queues, answer, &q)
        }
    }
}

// What `end_read` hands back by value, likewise.
fn keep_read(
    overlays: &mut [u64],
    done: Result<EndRead, Refusal>,
    position: usize,
    o: LogOverlays,
    next: &mut u64,
    end: &mut u64,
    id: &mut u64,
    fault: &mut u64,
) -> u64
    ensures { ReadLeft position o next.old done overlays.old result overlays.new next.new end.new id.new fault.new }
{
    match done {
        Ok(read) => {
            *next = read.next_record_id;
            *end = read.position as u64;
            *id = read.record_id;
            *fault = read.position as u64;
            keep(overlays, Answer::Done, &overlays_words(read.overlays))
        }
        Err(x) => {
            *end = position as u64;
            *id = 0;
            *fault = x.position as u64;
            keep(overlays, x.answer, &overlays_words(o))
        }
    }
}

// The cleared states; a refusal leaves the words as they were.
fn keep_cleared(overlays: &mut [u64], queues: &mut [u64], done: Result<LogsCleared, Answer>) -> u64
    ensures { ClearLeft done (heads_of overlays.old queues.old) result (heads_of overlays.new queues.new) }
{
    match done {
        Ok(cleared) => {
            keep(overlays, Answer::Done, &overlays_words(cleared.overlays));
            keep_queues(queues, Answer::Done, &cleared.queues)
        }
        Err(answer) => u64::from(answer.number()),
    }
}

#[unsafe(no_mangle)]
pub extern "C" fn hongsathep_begin_record(next: &mut u64, list: &mut [u64]) -> u64
    ensures answer { result ≡ number_of (answer_in (begin_in next.old (length list.old))) }
    ensures next { next.new ≡ begun_next next.old (begin_in next.old (length list.old)) }
    ensures list { list.new ≡ begun_list list.old (begin_in next.old (length list.old)) }
{
    match begin(*next, list.len()) {
        Ok(begun) => {
            *next = begun.next_record_id;
            keep(list, Answer::Done, &list_words(begun.list))
        }
        Err(answer) => u64::from(answer.number()),
    }
}

#[unsafe(no_mangle)]
pub extern "C" fn hongsathep_end_record<'a>(
    tables: &[u64],
    list: &[u64],
    items: &'a [u64],
    chunks: &'a [u8],
    overlays: &mut [u64],
    words: &mut [u64],
    bytes: &mut [u8],
    queues: &mut [u64],
    next: u64,
    out: &mut [u8],
    size: &mut u64,
    source: &mut u64,
    file: &mut u64,
) -> u64
    ensures { EndLeft (end_record (directory_from tables.now) (handed_of (list_from list.now) items.now chunks.now (overlays_from overlays.old) words.old bytes.old (queues_from queues.old) next out.old)) (heads_of overlays.old queues.old) result (heads_of overlays.new queues.new) words.new bytes.new out.new size.new source.new file.new }
{
    let d = directory_of(tables);
    let l = list_of(list);
    let o = overlays_of(overlays);
    let q = queues_of(queues);
    let done = ending::end_record(d, l, items, chunks, o, words, bytes, q, next, out);
    keep_ended(overlays, queues, done, o, q, size, source, file)
}

#[unsafe(no_mangle)]
pub extern "C" fn hongsathep_end_record_kept<'a>(
    tables: &[u64],
    list: &[u64],
    items: &'a [u64],
    chunks: &'a [u8],
    overlays: &mut [u64],
    words: &mut [u64],
    bytes: &mut [u8],
    queues: &mut [u64],
    next: u64,
    out: &mut [u8],
    size: &mut u64,
    source: &mut u64,
    file: &mut u64,
) -> u64
    requires { handed_kept (directory_from tables.now) (handed_of (list_from list.now) items.now chunks.now (overlays_from overlays.old) words.old bytes.old (queues_from queues.old) next out.old) ≡ true }
    ensures { EndLeft (end_record (directory_from tables.now) (handed_of (list_from list.now) items.now chunks.now (overlays_from overlays.old) words.old bytes.old (queues_from queues.old) next out.old)) (heads_of overlays.old queues.old) result (heads_of overlays.new queues.new) words.new bytes.new out.new size.new source.new file.new }
{
    let d = directory_of(tables);
    let l = list_of(list);
    let o = overlays_of(overlays);
    let q = queues_of(queues);
    let done = ending::end_record_kept(d, l, items, chunks, o, words, bytes, q, next, out);
    keep_ended(overlays, queues, done, o, q, size, source, file)
}

#[unsafe(no_mangle)]
pub extern "C" fn hongsathep_end_read(
    tables: &[u64],
    log: &[u8],
    position: usize,
    overlays: &mut [u64],
    words: &mut [u64],
    bytes: &mut [u8],
    next: &mut u64,
    end: &mut u64,
    id: &mut u64,
    fault: &mut u64,
) -> u64
    ensures answer { result ≡ number_of (end_read_of (directory_from tables.now) log.now position (overlays_of (overlays_from overlays.old) words.old bytes.old) next.old).answer }
    ensures overlays { overlays.new ≡ head_after overlays_size (number_of (end_read_of (directory_from tables.now) log.now position (overlays_of (overlays_from overlays.old) words.old bytes.old) next.old).answer) overlays.old (overlays_words (overlays_left (end_read_of (directory_from tables.now) log.now position (overlays_of (overlays_from overlays.old) words.old bytes.old) next.old).overlays)) }
    ensures memory { parts_of Shared (counts_in (end_read_of (directory_from tables.now) log.now position (overlays_of (overlays_from overlays.old) words.old bytes.old) next.old).overlays.parts) words.new bytes.new ≡ (end_read_of (directory_from tables.now) log.now position (overlays_of (overlays_from overlays.old) words.old bytes.old) next.old).overlays.parts }
    ensures next { next.new ≡ (end_read_of (directory_from tables.now) log.now position (overlays_of (overlays_from overlays.old) words.old bytes.old) next.old).next_record_id }
    ensures end { end.new ≡ (end_read_of (directory_from tables.now) log.now position (overlays_of (overlays_from overlays.old) words.old bytes.old) next.old).position }
    ensures id { id.new ≡ (end_read_of (directory_from tables.now) log.now position (overlays_of (overlays_from overlays.old) words.old bytes.old) next.old).record_id }
    ensures fault { fault.new ≡ (end_read_of (directory_from tables.now) log.now position (overlays_of (overlays_from overlays.old) words.old bytes.old) next.old).fault_at }
{
    let d = directory_of(tables);
    let o = overlays_of(overlays);
    let done = clearing::end_read(d, log, position, o, words, bytes, *next);
    keep_read(overlays, done, position, o, next, end, id, fault)
}

#[unsafe(no_mangle)]
pub extern "C" fn hongsathep_end_read_kept(
    tables: &[u64],
    log: &[u8],
    position: usize,
    overlays: &mut [u64],
    words: &mut [u64],
    bytes: &mut [u8],
    next: &mut u64,
    end: &mut u64,
    id: &mut u64,
    fault: &mut u64,
) -> u64
    requires { (directory_kept (directory_from tables.now) ≡ true) × (parts_kept Shared (parts_of Shared (overlays_from overlays.old).counts words.old bytes.old) ≡ true) × (next.old ≡ 0 → ⊥) }
    ensures answer { result ≡ number_of (end_read_by position (overlays_of (overlays_from overlays.old) words.old bytes.old) next.old (clearable (record_again (directory_from tables.now) log.now position))).answer }
    ensures overlays { overlays.new ≡ head_after overlays_size (number_of (end_read_by position (overlays_of (overlays_from overlays.old) words.old bytes.old) next.old (clearable (record_again (directory_from tables.now) log.now position))).answer) overlays.old (overlays_words (overlays_left (end_read_by position (overlays_of (overlays_from overlays.old) words.old bytes.old) next.old (clearable (record_again (directory_from tables.now) log.now position))).overlays)) }
    ensures memory { parts_of Shared (counts_in (end_read_by position (overlays_of (overlays_from overlays.old) words.old bytes.old) next.old (clearable (record_again (directory_from tables.now) log.now position))).overlays.parts) words.new bytes.new ≡ (end_read_by position (overlays_of (overlays_from overlays.old) words.old bytes.old) next.old (clearable (record_again (directory_from tables.now) log.now position))).overlays.parts }
    ensures next { next.new ≡ (end_read_by position (overlays_of (overlays_from overlays.old) words.old bytes.old) next.old (clearable (record_again (directory_from tables.now) log.now position))).next_record_id }
    ensures end { end.new ≡ (end_read_by position (overlays_of (overlays_from overlays.old) words.old bytes.old) next.old (clearable (record_again (directory_from tables.now) log.now position))).position }
    ensures id { id.new ≡ (end_read_by position (overlays_of (overlays_from overlays.old) words.old bytes.old) next.old (clearable (record_again (directory_from tables.now) log.now position))).record_id }
    ensures fault { fault.new ≡ (end_read_by position (overlays_of (overlays_from overlays.old) words.old bytes.old) next.old (clearable (record_again (directory_from tables.now) log.now position))).fault_at }
{
    let d = directory_of(tables);
    let o = overlays_of(overlays);
    let done = clearing::end_read_kept(d, log, position, o, words, bytes, *next);
    keep_read(overlays, done, position, o, next, end, id, fault)
}

#[unsafe(no_mangle)]
pub extern "C" fn hongsathep_clear_replay_logs(
    overlays: &mut [u64],
    words: &[u64],
    bytes: &[u8],
    queues: &mut [u64],
) -> u64
    ensures { ClearLeft (logs_cleared (overlays_from overlays.old) words.now bytes.now (queues_from queues.old)) (heads_of overlays.old queues.old) result (heads_of overlays.new queues.new) }
{
    let done = log_calls::clear_replay_logs(overlays_of(overlays), words, bytes, queues_of(queues));
    keep_cleared(overlays, queues, done)
}

#[unsafe(no_mangle)]
pub extern "C" fn hongsathep_clear_replay_logs_kept(overlays: &mut [u64], queues: &mut [u64]) -> u64
    requires { queues_kept (queues_from queues.old) ≡ true }
    ensures { ClearLeft (Ok (logs_cleared_kept (queues_from queues.old))) (heads_of overlays.old queues.old) result (heads_of overlays.new queues.new) }
{
    let cleared = log_calls::clear_replay_logs_kept(queues_of(queues));
    keep_cleared(overlays, queues, Ok(cleared))
}
