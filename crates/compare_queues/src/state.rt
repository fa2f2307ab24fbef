// The part of STATE that the queues are.
ghost use Rattle.std.specs.Prelude.{◌+◌, ◌≤◌};

use super::queues::put_queue;
use compare_lines::Line;
use files::Queues;

// What lies beside a false flag means nothing, and shows as 0.
fn put_places(line: &mut Line, q: Queues)
    requires { line.old.held + 18 ≤ 81920 }
    ensures { line.new.held ≤ line.old.held + 18 }
{
    let appending = q.appending;
    line.put_flag(appending.some);
    line.put(if appending.some { appending.id } else { 0 }, 4);
    line.put(if appending.some { appending.size } else { 0 }, 8);
    let reading = q.reading;
    line.put_flag(reading.some);
    line.put(if reading.some { reading.id } else { 0 }, 4);
}

// The number and the id of each.
fn put_replay(line: &mut Line, q: Queues)
    requires { line.old.held + 770 ≤ 81920 }
    ensures { line.new.held ≤ line.old.held + 770 }
{
    let n = q.replay_queue.count.min(64);
    line.put(n as u64, 2);
    for i in 0..n {
        line.put(q.replay_queue.numbers[i], 4);
        line.put(q.replay_ids[i], 8);
    }
}

// All that STATE tells of the queues, with the next id among it.
pub fn put_queues(line: &mut Line, queues: Queues, next_id: u64)
    ensures { line.new.held ≤ 3783 }
{
    line.clear();
    put_places(line, queues);
    put_queue(line, queues.read_queue);
    put_queue(line, queues.cleanup_queue);
    put_queue(line, queues.log_pool);
    put_replay(line, queues);
    line.put(u64::from(queues.next_log_id), 4);
    line.put(next_id, 8);
    line.put_flag(queues.dirty);
}
