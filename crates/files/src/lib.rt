// File numbers and the queues they stand in.
#![tactic(auto)]

mod cleaning;
mod open;
mod queues;
mod read;
mod reading;
mod writing;

pub use cleaning::{Cleaned, Killed};
pub use found::log_name;
pub use numbers::NumberQueue;
pub use open::Opened;
pub use queues::{Appending, Queues, Reading};
pub use read::ReadNext;
pub use reading::{ReplayCleared, ReplayNext};
pub use writing::{FileSource, Flushed, Taken};
