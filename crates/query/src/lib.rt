// Lookups: in a shared overlay alone, or in a change list first and then in the shared overlay; many keys of a shared overlay at once.
#![tactic(auto)]

mod copy;
mod find;
mod listed;
mod lookup;
mod several;
mod shared;

pub use find::place_in;
pub use listed::Listed;
pub use lookup::Lookup;
pub use shared::Shared;
