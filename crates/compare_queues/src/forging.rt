// FORGE_QUEUES: queues that no call makes.
use answer::Answer;
use compare_lines::{Fault, Fields, Line};
use files::{Appending, NumberQueue, Queues, Reading};

// The numbers of a list, as many as there is room for, and a count that may be beyond the room.
fn take_queue(fields: &mut Fields) -> Result<NumberQueue, Fault> {
    let count = usize::from(fields.u16()?);
    let mut listed = Fields::of(fields.bytes(4 * count)?);
    let mut numbers = [0u64; 64];
    for i in 0..count.min(64) {
        numbers[i] = u64::from(listed.u32()?);
    }
    Ok(NumberQueue { count, numbers })
}

pub fn forge_queues(queues: &mut Queues, mut fields: Fields, line: &mut Line) -> Result<(), Fault> {
    queues.appending = Appending {
        some: fields.flag()?,
        id: u64::from(fields.u32()?),
        size: fields.u64()?,
    };
    queues.reading = Reading {
        some: fields.flag()?,
        id: u64::from(fields.u32()?),
    };
    queues.read_queue = take_queue(&mut fields)?;
    queues.cleanup_queue = take_queue(&mut fields)?;
    queues.log_pool = take_queue(&mut fields)?;
    queues.replay_queue = take_queue(&mut fields)?;
    queues.replay_ids = [0; 64];
    queues.next_log_id = fields.u32()?;
    queues.dirty = fields.flag()?;
    fields.end()?;
    line.begin(Answer::Done);
    Ok(())
}
