// The writer: a change list as a record at the front of a lent output.
#![tactic(auto)]

mod drops;
mod entry;
mod flush;
mod kinds;
mod slots;

pub use flush::{flush_to_file, flush_to_file_kept};
