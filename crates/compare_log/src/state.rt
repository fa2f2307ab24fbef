// OPEN, CLEAR_REPLAY, STATE and FORGE_NEXT_ID: the log's state.
use super::life::Life;
use answer::Answer;
use compare_lines::{Fault, Fields, Line};
use memory::LogOverlays;

// A refused open leaves the state.
pub fn open(life: &mut Life, fields: Fields, line: &mut Line) -> Result<(), Fault> {
    if compare_queues::open(&mut life.queues, fields, line)? {
        life.overlays.overlays = LogOverlays::new();
        life.next_record_id = log_calls::first_record_id();
    }
    Ok(())
}

pub fn clear_replay(life: &mut Life, fields: Fields, line: &mut Line) -> Result<(), Fault> {
    fields.end()?;
    let done = log_calls::clear_replay_logs(
        life.overlays.overlays,
        &life.overlays.words,
        &life.overlays.bytes,
        life.queues,
    );
    if let Ok(cleared) = done {
        life.overlays.overlays = cleared.overlays;
        life.queues = cleared.queues;
    }
    line.begin_with(done);
    Ok(())
}

// The queues, and the last ids of the columns.
pub fn state(life: &Life, fields: Fields, line: &mut Line) -> Result<(), Fault> {
    fields.end()?;
    compare_queues::put_queues(line, life.queues, life.next_record_id);
    for id in &life.overlays.overlays.last_record_ids {
        line.put(*id, 8);
    }
    Ok(())
}

pub fn forge_next_id(life: &mut Life, mut fields: Fields, line: &mut Line) -> Result<(), Fault> {
    let id = fields.u64()?;
    fields.end()?;
    life.next_record_id = id;
    line.begin(Answer::Done);
    Ok(())
}
