// The commands over records as a whole, and those of the log's state.
#![tactic(auto)]

mod ends;
mod life;
mod opcode;
mod records;
mod state;

pub use life::Life;
