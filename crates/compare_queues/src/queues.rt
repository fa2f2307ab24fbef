// FLUSH, READ_NEXT, REPLAY_NEXT, CLEAN and KILL: the files and the queues they stand in.
ghost use Rattle.std.specs.Prelude.{◌+◌, ◌≤◌};

use answer::Answer;
use compare_lines::{Fault, Fields, Line};
use files::{NumberQueue, Queues};

pub fn put_queue(line: &mut Line, queue: NumberQueue)
    requires { line.old.held + 322 ≤ 81920 }
    ensures { line.new.held ≤ line.old.held + 322 }
{
    line.put_nums(&queue.numbers[..queue.count.min(64)]);
}

pub fn flush(queues: &mut Queues, mut fields: Fields, line: &mut Line) -> Result<(), Fault> {
    let minimum = fields.u64()?;
    fields.end()?;
    let done = queues.flush_one(minimum);
    *queues = done.queues;
    line.begin(done.answer);
    line.put_flag(done.moved.is_some());
    Ok(())
}

pub fn read_next(
    queues: &mut Queues,
    log: &[u8],
    mut fields: Fields,
    line: &mut Line,
) -> Result<(), Fault> {
    let position = fields.u64()? as usize;
    let validate = fields.flag()?;
    fields.end()?;
    let done = queues.read_next(log, position, validate);
    *queues = done.queues;
    line.begin(done.answer);
    if done.answer == Answer::Done {
        line.put(done.reader.record_id(), 8);
        line.put(done.reader.position as u64, 8);
    }
    Ok(())
}

pub fn replay_next(queues: &mut Queues, fields: Fields, line: &mut Line) -> Result<(), Fault> {
    fields.end()?;
    let done = queues.replay_next();
    *queues = done.queues;
    line.begin(done.answer);
    line.put_flag(done.number.is_some());
    line.put(done.number.unwrap_or(0), 4);
    Ok(())
}

pub fn clean(queues: &mut Queues, mut fields: Fields, line: &mut Line) -> Result<(), Fault> {
    let n = fields.u64()? as usize;
    fields.end()?;
    let done = queues.clean_logs(n);
    *queues = done.queues;
    line.begin(done.answer);
    line.put_flag(done.more);
    put_queue(line, done.empty);
    put_queue(line, done.remove);
    Ok(())
}

pub fn kill(queues: &mut Queues, fields: Fields, line: &mut Line) -> Result<(), Fault> {
    fields.end()?;
    let done = queues.kill_logs();
    *queues = done.queues;
    line.begin(done.answer);
    put_queue(line, done.remove);
    Ok(())
}
