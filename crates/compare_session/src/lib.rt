// All commands of the run protocol.
#![tactic(auto)]

mod session;

pub use session::Session;
