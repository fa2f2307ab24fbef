// Files read: into a buffer, and a log of any length through a window of fixed length.
#![tactic(auto)]

mod window;

pub use window::{Outcome, ROOM, Stop, Unfilled, fill, move_front, replay_file};
