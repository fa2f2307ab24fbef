// The calls that take a directory, over a lent slice of descriptions.
pub use lent::{
    drop_ref_count_table, drop_table, end_read, end_record, find, flush_to_file, gather,
    image_length, insert_index, insert_ref_count, insert_value, kept, next, record_size, replay,
    run, salvage, start,
};
