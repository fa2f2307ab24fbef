// The beginning of a record: log.rs lines 839 to 842.
ghost use Rattle.std.specs.Prelude.{◌≡◌};
ghost use Rattle.log_calls.specs.Begin.{first_record_id, begin_record};

use answer::Answer;
use change::LogChange;

// The next id afterwards, and the list to fill.
#[derive(Clone, Copy)]
pub struct Begun {
    pub next_record_id: u64,
    pub list: LogChange,
}

// The next id of a log that has no record.
pub fn first_record_id() -> u64
    ensures { result ≡ first_record_id }
{
    1
}

// Hands out the next id.
#[tactic(auto, unfolding(crate::specs::Begin::begin_record))]
pub fn begin_record(next: u64) -> Result<Begun, Answer>
    ensures { result ≡ begin_record next }
{
    if next == 0 {
        return Err(Answer::BadState);
    }
    if next == answer::LAST_RECORD_ID {
        return Err(Answer::UsedUp);
    }
    Ok(Begun {
        next_record_id: next + 1,
        list: LogChange::new(next),
    })
}
