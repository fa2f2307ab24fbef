// The ids of records.

// The largest id that a record's bytes can hold.
pub const LAST_RECORD_ID: u64 = 18446744073709551615;
