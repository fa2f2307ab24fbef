// The commands over the files and the queues they stand in, but for those that touch the overlays too.
#![tactic(auto)]

mod forging;
mod opcode;
mod opening;
mod queues;
mod state;

pub use opcode::serve;
pub use opening::open;
pub use state::put_queues;
