// The calls of the log that touch several parts.
#![tactic(auto)]

mod begin;
mod clear_replay;

pub use begin::{Begun, begin_record, first_record_id};
pub use clear_replay::{LogsCleared, clear_replay_logs, clear_replay_logs_kept};
