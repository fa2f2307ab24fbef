// Commands from standard input, and answers to standard output.
#![tactic(auto)]

mod stdin;
mod stdout;

pub use stdin::{Input, TURNS};
pub use stdout::Output;
