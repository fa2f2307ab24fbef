// The walk over bytes that are there.
ghost use Rattle.std.specs.Prelude.{◌≡◌, true, ◌+◌, ◌<◌};
ghost use Rattle.directory.specs.Directory.{directory_kept};
ghost use Rattle.record.specs.Next.{step_of};
ghost use Rattle.checker.specs.Check.{may_change, decides, after_record, after_opening, after_action, went_by, check_in};
ghost use Rattle.checker.specs.Inner.{Stands};

use super::standing::Standing;
use answer::Answer;
use directory::Directory;
use record::{LogReader, Stepped};
use replay::Ran;

// 1 and 2, which bytes to come may change (no step is refused with 0).
pub fn may_change(answer: Answer) -> bool
    ensures { result ≡ may_change answer }
{
    answer.number() < 3
}

// 3 to 12: among these are all others that stop a run.
pub fn decides(answer: Answer) -> bool
    ensures { result ≡ decides answer }
{
    (3..=12).contains(&answer.number())
}

// Behind a begin tag.
fn opened(s: Standing, r: LogReader) -> Result<Option<Standing>, Ran>
    ensures { result ≡ after_opening s r }
{
    if r.record_id == s.expected {
        Ok(Some(s.reading(r)))
    } else {
        Err(s.report(Answer::WrongId, s.start))
    }
}

// Behind an end tag.
fn ended(base: usize, s: Standing, r: LogReader) -> Result<Option<Standing>, Ran>
    requires { (base + r.position < 9223372036854775808) × (s.count < 9223372036854775808) }
    ensures { result ≡ after_record base s r }
{
    let end = base + r.position;
    let count = s.count + 1;
    if s.expected == answer::LAST_RECORD_ID {
        return Err(Ran {
            answer: Answer::UsedUp,
            position: end,
            count,
            fault_at: end,
        });
    }
    Ok(Some(Standing {
        expected: s.expected + 1,
        start: end,
        count,
        reader: r,
    }))
}

// Behind an action.
fn took(base: usize, s: Standing, t: Stepped) -> Result<Option<Standing>, Ran>
    requires { (base + t.reader.position < 9223372036854775808) × (s.count < 9223372036854775808) }
    ensures { result ≡ after_action base s t }
{
    if !s.reader.inside {
        opened(s, t.reader)
    } else if t.action.is_end() {
        ended(base, s, t.reader)
    } else {
        Ok(Some(s.reading(t.reader)))
    }
}

// One step: where the check stands behind it, or nothing where more bytes are wanted (1 and 2); or what a run reports that stops there.
pub fn one_step(d: Directory, log: &[u8], base: usize, s: Standing) -> Result<Option<Standing>, Ran>
    requires { (directory_kept d ≡ true) × Stands log.now base s }
    ensures { result ≡ went_by base s (step_of d log.now s.reader) }
{
    match s.reader.next_kept(d, log) {
        Ok(t) => took(base, s, t),
        Err(x) => {
            if may_change(x.answer) {
                Ok(None)
            } else {
                Err(s.report(x.answer, base + x.position))
            }
        }
    }
}

// All of the bytes, from the reader's place on: where the check waits for more, or what a run reports that stops in them.
pub fn check_all(d: Directory, log: &[u8], base: usize, s: Standing) -> Result<Standing, Ran>
    requires { (directory_kept d ≡ true) × Stands log.now base s }
    ensures { result ≡ check_in d log.now base s }
{
    let mut cur = s;
    while let Some(next) = one_step(d, log, base, cur)? {
        cur = next;
    }
    Ok(cur)
}
