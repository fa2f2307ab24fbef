// The calls that take a directory, over one that is lent as a slice of descriptions.
#![tactic(auto)]

mod entries;
mod lists;
mod records;
mod slice;
mod tables;

pub use entries::{next, replay, run, salvage};
pub use lists::{
    drop_ref_count_table, drop_table, insert_index, insert_ref_count, insert_value, record_size,
};
pub use records::{end_read, end_record, flush_to_file};
pub use slice::gather;
pub use tables::{find, image_length, kept, start};
