// The change list: what one record is to say. By value its id, how many keys it has and its drops; its keys and bytes in two lent memories.
#![tactic(auto)]

mod change;
mod drops;
mod fits;
mod index_tables;
mod inserts;
mod marks;
mod plans;
mod ref_count_tables;
mod ruled;
mod size;
mod value_tables;
mod values;

pub use change::{Changed, LogChange};
pub use drops::Drops;
pub use ruled::Ruled;
pub use values::LocalValues;
