// The commands over a change list.
#![tactic(auto)]

mod changing;
mod forging;
mod list;
mod opcode;
mod telling;
mod writing;

pub use list::List;
