// The commands that read: the directory, the bytes of a log and of an image, steps through a log, and replay.
#![tactic(auto)]

mod bytes;
mod images;
mod opcode;
mod state;
mod steps;
mod tables;

pub use state::Reading;
