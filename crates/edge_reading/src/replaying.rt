// Replay: a record, and a run of them.
ghost use Rattle.std.specs.Prelude.{◌≡◌, true};
ghost use Rattle.replay.specs.Replay.{record_at, tables_kept, judged, replayed_by, replayed_as, image_after, end_in};
ghost use Rattle.replay.specs.Run.{run_in, run_of};
ghost use Rattle.host_words.specs.Tables.{directory_from};
ghost use Rattle.edge_reading.specs.Reading.{ReplayedLeft, RanLeft};

use answer::Refusal;
use host_words::directory_of;
use replay::Ran;

// What a replay leaves beside the image, stored where the host lent room for it: a refused record leaves the position handed in.
fn keep_replayed(
    done: Result<usize, Refusal>,
    position: usize,
    end: &mut u64,
    fault: &mut u64,
) -> u64
    ensures { ReplayedLeft (replayed_by position done) result end.new fault.new }
{
    match done {
        Ok(behind) => {
            *end = behind as u64;
            *fault = behind as u64;
            0
        }
        Err(x) => {
            *end = position as u64;
            *fault = x.position as u64;
            u64::from(x.answer.number())
        }
    }
}

fn keep_ran(ran: Ran, end: &mut u64, count: &mut u64, fault: &mut u64) -> u64
    ensures { RanLeft ran result end.new count.new fault.new }
{
    *end = ran.position as u64;
    *count = ran.count;
    *fault = ran.fault_at as u64;
    u64::from(ran.answer.number())
}

#[unsafe(no_mangle)]
pub extern "C" fn hongsathep_replay(
    tables: &[u64],
    log: &[u8],
    position: usize,
    expected: u64,
    image: &mut [u8],
    end: &mut u64,
    fault: &mut u64,
) -> u64
    ensures told { ReplayedLeft (replayed_as position (judged (directory_from tables.now) log.now position expected image.old)) result end.new fault.new }
    ensures image { image.new ≡ image_after (directory_from tables.now) image.old (judged (directory_from tables.now) log.now position expected image.old) }
{
    let done = replay::replay(directory_of(tables), log, position, expected, image);
    keep_replayed(done, position, end, fault)
}

#[unsafe(no_mangle)]
pub extern "C" fn hongsathep_replay_kept(
    tables: &[u64],
    log: &[u8],
    position: usize,
    expected: u64,
    image: &mut [u8],
    end: &mut u64,
    fault: &mut u64,
) -> u64
    requires { tables_kept (directory_from tables.now) image.old ≡ true }
    ensures told { ReplayedLeft (replayed_by position (end_in (record_at (directory_from tables.now) log.now position expected))) result end.new fault.new }
    ensures image { image.new ≡ image_after (directory_from tables.now) image.old (record_at (directory_from tables.now) log.now position expected) }
{
    let done = replay::replay_kept(directory_of(tables), log, position, expected, image);
    keep_replayed(done, position, end, fault)
}

#[unsafe(no_mangle)]
pub extern "C" fn hongsathep_run(
    tables: &[u64],
    log: &[u8],
    position: usize,
    expected: u64,
    image: &mut [u8],
    end: &mut u64,
    count: &mut u64,
    fault: &mut u64,
) -> u64
    ensures told { RanLeft (run_of (directory_from tables.now) log.now position expected image.old).ran result end.new count.new fault.new }
    ensures image { image.new ≡ (run_of (directory_from tables.now) log.now position expected image.old).image }
{
    let ran = replay::run(directory_of(tables), log, position, expected, image);
    keep_ran(ran, end, count, fault)
}

#[unsafe(no_mangle)]
pub extern "C" fn hongsathep_run_kept(
    tables: &[u64],
    log: &[u8],
    position: usize,
    expected: u64,
    image: &mut [u8],
    end: &mut u64,
    count: &mut u64,
    fault: &mut u64,
) -> u64
    requires { tables_kept (directory_from tables.now) image.old ≡ true }
    ensures told { RanLeft (run_in (directory_from tables.now) log.now position expected 0 image.old).ran result end.new count.new fault.new }
    ensures image { image.new ≡ (run_in (directory_from tables.now) log.now position expected 0 image.old).image }
{
    let ran = replay::run_kept(directory_of(tables), log, position, expected, image);
    keep_ran(ran, end, count, fault)
}
