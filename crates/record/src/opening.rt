// The opening of a record.
ghost use Rattle.std.specs.Prelude.{◌≡◌, ◌+◌, ◌≤◌, length};
ghost use Rattle.record.specs.Format.{read_at};
ghost use Rattle.record.specs.Inner.{got_by};
ghost use Rattle.record.specs.Record.{begun_id, early, early_end, opening};

use answer::{Answer, Tag};

// Tag 1.
#[tactic(auto, unfolding(crate::specs::Format::read_at, crate::specs::Record::begun_id))]
fn begun_at(log: &[u8], body: usize) -> Result<u64, Answer>
    requires { body ≤ length log.now }
    ensures { got_by result (body + 8) ≡ read_at begun_id body log.now }
{
    if log.len() - body < 8 {
        return Err(Answer::EndOfLog);
    }
    Ok(words::u64_at(log, body))
}

// An action other than begin, of which so many bytes are wanted behind the tag.
#[tactic(auto, unfolding(crate::specs::Format::read_at, crate::specs::Record::early))]
fn early_at(log: &[u8], body: usize, k: usize) -> Result<u64, Answer>
    requires { body ≤ length log.now }
    ensures { got_by result (body + 8) ≡ read_at (early k) body log.now }
{
    if log.len() - body < k {
        return Err(Answer::EndOfLog);
    }
    Err(Answer::OutOfPlace)
}

// Tag 4.
#[tactic(auto, unfolding(crate::specs::Format::read_at, crate::specs::Record::early_end))]
fn early_end_at(log: &[u8], body: usize, validate: bool) -> Result<u64, Answer>
    requires { body ≤ length log.now }
    ensures { got_by result (body + 8) ≡ read_at (early_end validate) body log.now }
{
    if log.len() - body < 4 {
        return Err(Answer::EndOfLog);
    }
    let sum = words::u32_at(log, body);
    if validate && sum != checksum::checksum(&[Tag::END_RECORD.0]) {
        Err(Answer::WrongSum)
    } else {
        Err(Answer::OutOfPlace)
    }
}

// The decision on the tag, where a record opens.
#[tactic(auto, unfolding(crate::specs::Format::read_at, crate::specs::Record::opening, crate::specs::Record::opening_by))]
pub fn opening_at(log: &[u8], at: usize, validate: bool) -> Result<u64, Answer>
    requires { at ≤ length log.now }
    ensures { got_by result (at + 1 + 8) ≡ read_at (opening validate) at log.now }
{
    let Some(&tag) = log.get(at) else {
        return Err(Answer::EndOfLog);
    };
    let body = at + 1;
    match tag {
        1 => begun_at(log, body),
        2 => early_at(log, body, 10),
        3 => early_at(log, body, 10),
        4 => early_end_at(log, body, validate),
        5 => early_at(log, body, 2),
        6 => early_at(log, body, 10),
        7 => early_at(log, body, 2),
        0 | 8..=255 => Err(Answer::UnknownTag),
    }
}
