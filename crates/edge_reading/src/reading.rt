// The reader's calls.
ghost use Rattle.std.specs.Prelude.{◌≡◌, true};
ghost use Rattle.directory.specs.Directory.{directory_kept};
ghost use Rattle.record.specs.Next.{reader_at};
ghost use Rattle.host_words.specs.Tables.{directory_from};
ghost use Rattle.host_words.specs.Head.{head_room, head_after};
ghost use Rattle.host_words.specs.Reader.{reader_size, reader_words};
ghost use Rattle.answer.specs.Answer.{number_of, refusal};
ghost use Rattle.answer.specs.declared.answer.Answer.TheVariants.{BadState};
ghost use Rattle.edge_reading.specs.Reading.{row_words, index_in, action_numbers, next_in, step_in, StepLeft, numbers_of};

use answer::{Answer, Refusal};
use host_words::{directory_of, keep, make, reader_of, reader_words};
use record::{LogAction, LogReader, Stepped};

// An action that was read, in numbers; `fault` is where a refused one begins, and behind one that was read the position.
#[derive(Clone, Copy)]
pub struct ActionNumbers {
    pub tag: u64,
    pub table: u64,
    pub index: u64,
    pub start: u64,
    pub length: u64,
    pub fault: u64,
}

// The table and the index that an action names, 0 where it names none.
fn named_in(action: LogAction) -> (u16, u64)
    ensures { result ≡ (row_words action, index_in action) }
{
    match action {
        LogAction::InsertIndex(a) => (a.table.0, a.index),
        LogAction::InsertValue(a) => (a.table.0, a.index),
        LogAction::InsertRefCount(a) => (a.table.0, a.index),
        LogAction::DropTable(t) => (t.0, 0),
        LogAction::DropRefCountTable(t) => (t.0, 0),
        LogAction::BeginRecord | LogAction::EndRecord => (0, 0),
    }
}

fn action_in(step: Result<Stepped, Refusal>) -> ActionNumbers
    ensures { result ≡ action_numbers step }
{
    match step {
        Ok(s) => {
            let (table, index) = named_in(s.action);
            ActionNumbers {
                tag: u64::from(s.action.tag().0),
                table: u64::from(table),
                index,
                start: s.start as u64,
                length: s.length as u64,
                fault: s.reader.position as u64,
            }
        }
        Err(x) => ActionNumbers {
            tag: 0,
            table: 0,
            index: 0,
            start: 0,
            length: 0,
            fault: x.position as u64,
        },
    }
}

fn no_reader() -> Refusal
    ensures { result ≡ refusal BadState 0 }
{
    Refusal::new(Answer::BadState, 0)
}

#[tactic(auto, unfolding(crate::specs::Reading::next_in))]
fn next_in(tables: &[u64], log: &[u8], reader: &[u64]) -> Result<Stepped, Refusal>
    ensures { result ≡ next_in tables.now log.now reader.now }
{
    let reader = reader_of(reader).ok_or(no_reader())?;
    reader.next(directory_of(tables), log)
}

#[tactic(auto, unfolding(crate::specs::Reading::step_in))]
fn step_in(tables: &[u64], log: &[u8], reader: &[u64]) -> Result<Stepped, Refusal>
    requires { directory_kept (directory_from tables.now) ≡ true }
    ensures { result ≡ step_in tables.now log.now reader.now }
{
    let reader = reader_of(reader).ok_or(no_reader())?;
    reader.next_kept(directory_of(tables), log)
}

// What a step leaves, stored where the host lent room for it: the reader is the one behind the action, where there is one.
fn keep_next(
    reader: &mut [u64],
    step: Result<Stepped, Refusal>,
    tag: &mut u64,
    table: &mut u64,
    index: &mut u64,
    start: &mut u64,
    length: &mut u64,
    fault: &mut u64,
) -> u64
    ensures { StepLeft step reader.old result reader.new (numbers_of tag.new table.new index.new start.new length.new fault.new) }
{
    let a = action_in(step);
    *tag = a.tag;
    *table = a.table;
    *index = a.index;
    *start = a.start;
    *length = a.length;
    *fault = a.fault;
    match step {
        Ok(s) => keep(reader, Answer::Done, &reader_words(s.reader)),
        Err(x) => u64::from(x.answer.number()),
    }
}

#[unsafe(no_mangle)]
pub extern "C" fn hongsathep_reader_new(reader: &mut [u64], position: usize, validate: bool) -> u64
    ensures answer { result ≡ number_of (head_room reader_size reader.old) }
    ensures after { reader.new ≡ head_after reader_size (number_of (head_room reader_size reader.old)) reader.old (reader_words (reader_at position validate)) }
{
    make(reader, &reader_words(LogReader::new(position, validate)))
}

#[unsafe(no_mangle)]
pub extern "C" fn hongsathep_next(
    tables: &[u64],
    log: &[u8],
    reader: &mut [u64],
    tag: &mut u64,
    table: &mut u64,
    index: &mut u64,
    start: &mut u64,
    length: &mut u64,
    fault: &mut u64,
) -> u64
    ensures { StepLeft (next_in tables.now log.now reader.old) reader.old result reader.new (numbers_of tag.new table.new index.new start.new length.new fault.new) }
{
    let step = next_in(tables, log, reader);
    keep_next(reader, step, tag, table, index, start, length, fault)
}

#[unsafe(no_mangle)]
pub extern "C" fn hongsathep_next_kept(
    tables: &[u64],
    log: &[u8],
    reader: &mut [u64],
    tag: &mut u64,
    table: &mut u64,
    index: &mut u64,
    start: &mut u64,
    length: &mut u64,
    fault: &mut u64,
) -> u64
    requires { directory_kept (directory_from tables.now) ≡ true }
    ensures { StepLeft (step_in tables.now log.now reader.old) reader.old result reader.new (numbers_of tag.new table.new index.new start.new length.new fault.new) }
{
    let step = step_in(tables, log, reader);
    keep_next(reader, step, tag, table, index, start, length, fault)
}
