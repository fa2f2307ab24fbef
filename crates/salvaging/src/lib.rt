// A damaged log salvaged: the whole records that stand in it, copied one behind the other, and a list of them and of what lies between.
#![tactic(auto)]

mod copying;
mod lines;
mod listing;
mod salvaged;
mod search;

pub use lines::{Line, Lines};
pub use salvaged::{Salvaged, salvage, salvage_kept};
pub use search::{Found, Search, search_kept};
