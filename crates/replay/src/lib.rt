// Replay: a record is checked to its end before any byte of the image is written.
#![tactic(auto)]

mod apply;
mod check;
mod many_records;
mod one_record;
mod whole;

pub use many_records::{Ran, run, run_kept};
pub use one_record::{replay, replay_kept};
pub use whole::{WholeRecord, check_record_in};
