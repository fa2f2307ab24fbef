// The files found at open: which of them are logs, which are kept, and in which order they are replayed.
#![tactic(auto)]

mod files;
mod logs;
mod name;
mod sorted;

pub use logs::{LogFiles, log_files};
pub use name::log_name;
pub use sorted::LogFile;
