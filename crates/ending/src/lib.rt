// The end of a record: written to the output, its entries put over the shared ones.
#![tactic(auto)]

mod handed;
mod record_end;

pub use record_end::{Ended, end_record, end_record_kept};
