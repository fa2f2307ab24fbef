// A list's entries put over the shared ones, as the end of a record does it.
#![tactic(auto)]

mod crowd;
mod last_id;
mod place;
mod whole;

pub use crowd::any_crowded;
pub use whole::put_list;
