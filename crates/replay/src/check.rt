// The first pass over a record: from its opening to its end.
ghost use Rattle.std.specs.Prelude.{◌≡◌, ◌+◌, ◌≤◌, length, IfOk};
ghost use Rattle.replay.specs.Inner.{Opened, Walker};
ghost use Rattle.replay.specs.Replay.{rest_in, end_in};

use answer::{Answer, Refusal};
use directory::Directory;
use record::LogReader;

// From inside a record to the place behind it, or the fault before. The walk keeps its place alone: a whole reader would be copied at each action.
fn end_of(directory: &Directory, log: &[u8], r: LogReader) -> Result<usize, Refusal>
    requires { Walker log.now r }
    ensures end { result ≡ end_in (rest_in directory.now log.now r) }
    ensures in_bounds { IfOk result (λ end. (r.position + 5 ≤ end) × (end ≤ length log.now)) }
{
    let mut at = r.position;
    loop {
        let read = record::item_at(directory, log, at, r.validate, r.crc32);
        let item = read.map_err(|answer| Refusal::new(answer, at))?;
        at = item.start + item.length;
        if item.action.is_end() {
            return Ok(at);
        }
    }
}

// The first pass behind the opening: the record's end, and its checksum taken over all its bytes at once.
pub fn checked_rest(
    directory: &Directory,
    log: &[u8],
    at: usize,
    opened: LogReader,
) -> Result<usize, Refusal>
    requires { Opened log.now at opened }
    ensures { result ≡ end_in (rest_in directory.now log.now opened) }
{
    let end = end_of(directory, log, opened.unvalidated())?;
    let tail = end - 4;
    let sum = words::u32_at(log, tail);
    if sum == checksum::checksum(&log[at..tail]) {
        Ok(end)
    } else {
        Err(Refusal::new(Answer::WrongSum, end - 5))
    }
}
