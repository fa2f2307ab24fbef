// The commands over the shared overlays, and over keys looked up in them or in a list before.
#![tactic(auto)]

mod lookups;
mod opcode;
mod overlays;

pub use overlays::Overlays;
