// Every call of a host under one name. The calls that take a directory stand here by value, and in `slices` over a lent slice of descriptions.
#![tactic(auto)]

pub mod slices;

pub use answer::{Answer, LAST_RECORD_ID, Refusal, Tag};
pub use change::{Changed, Drops, LocalValues, LogChange};
pub use checksum::checksum;
pub use clearing::{EndRead, end_read, end_read_kept};
pub use directory::{
    Directory, IndexTableId, RefCountTableId, TableDescription, TableKind, ValueTableId,
};
pub use ending::{Ended, end_record, end_record_kept};
pub use files::{
    Appending, Cleaned, FileSource, Flushed, Killed, NumberQueue, Opened, Queues, ReadNext,
    Reading, ReplayNext, Taken, log_name,
};
pub use log_calls::{
    Begun, LogsCleared, begin_record, clear_replay_logs, clear_replay_logs_kept, first_record_id,
};
pub use memory::{Counts, Holder, LogOverlays, Span, span_of};
pub use query::{Listed, Lookup, Shared};
pub use record::{
    InsertIndexAction, InsertRefCountAction, InsertValueAction, LogAction, LogReader, Stepped,
};
pub use replay::{Ran, replay, replay_kept, run, run_kept};
pub use salvaging::{Salvaged, salvage, salvage_kept};
pub use writer::{flush_to_file, flush_to_file_kept};
