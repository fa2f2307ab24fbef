// A record checked to its end, whatever its id: what clearing reads again.
ghost use Rattle.std.specs.Prelude.{◌≡◌, true};
ghost use Rattle.record.specs.Next.{reader_at, step_of};
ghost use Rattle.replay.specs.Replay.{rest_in, whole_of};

use super::check::checked_rest;
use answer::Refusal;
use directory::Directory;
use record::LogReader;

// The reader behind the opening, and the place behind the record.
#[derive(Clone, Copy)]
pub struct WholeRecord {
    pub opened: LogReader,
    pub end: usize,
}

// The record at a position. A walk lends its directory: by value it would be copied at each record.
pub fn check_record_in(directory: &Directory, log: &[u8], at: usize) -> Result<WholeRecord, Refusal>
    ensures { result ≡ whole_of (rest_in directory.now log.now) (step_of directory.now log.now (reader_at at true)) }
{
    let opened = LogReader::new(at, true).open(log)?.reader;
    let end = checked_rest(directory, log, at, opened)?;
    Ok(WholeRecord { opened, end })
}
