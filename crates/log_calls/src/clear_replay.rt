// What was to be replayed, cleared: log.rs lines 816 to 837.
ghost use Rattle.std.specs.Prelude.{◌≡◌, true};
ghost use Rattle.files.specs.Queues.{queues_kept};
ghost use Rattle.log_calls.specs.ClearReplay.{logs_cleared_kept, logs_cleared};

use answer::Answer;
use files::Queues;
use memory::{Holder, LogOverlays};

#[derive(Clone, Copy)]
pub struct LogsCleared {
    pub overlays: LogOverlays,
    pub queues: Queues,
}

// Behind 13: the overlays that were are not asked.
pub fn clear_replay_logs_kept(queues: Queues) -> LogsCleared
    requires { queues_kept queues ≡ true }
    ensures { result ≡ logs_cleared_kept queues }
{
    LogsCleared {
        overlays: LogOverlays::new(),
        queues: queues.clear_replay_logs_kept().queues,
    }
}

// Empties overlays and what was to be replayed; the overlays' memory is only read. A refusal changes nothing.
pub fn clear_replay_logs(
    overlays: LogOverlays,
    words: &[u64],
    bytes: &[u8],
    queues: Queues,
) -> Result<LogsCleared, Answer>
    ensures { result ≡ logs_cleared overlays words.now bytes.now queues }
{
    if memory::all_kept(Holder::Shared, overlays.counts, words, bytes) && queues.kept() {
        Ok(clear_replay_logs_kept(queues))
    } else {
        Err(Answer::BadState)
    }
}
