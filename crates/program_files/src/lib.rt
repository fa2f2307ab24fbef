// What the programs do with files beside the log: a directory read, a file replaced whole, and what standard error is told. Each call is handed
// the program's name, for its messages.
#![tactic(auto)]

mod arguments;
mod directory_file;
mod fault;
mod meaning;
mod message;
mod opening;
mod reason;
mod replacing;
mod same;

pub use arguments::{PATH_ROOM, argument, argument_count, first_id};
pub use directory_file::{TEXT_ROOM, read_directory};
pub use meaning::Report;
pub use message::{Teller, Told};
pub use opening::{open_read, open_told};
pub use replacing::{NAME_ROOM, drop_new, new_name, put_in_place, start_new};
pub use same::same_file;
