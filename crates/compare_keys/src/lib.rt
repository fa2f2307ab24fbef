// The keys of a list, or those shared by all: forged ones put in untested, and all of them told with checksums.
#![tactic(auto)]

mod forging;
mod part;
mod telling;

pub use forging::{Forged, append};
pub use part::part_of;
pub use telling::put_keys;
