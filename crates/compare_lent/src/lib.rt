// The calls that take a directory, with the directory by value or as a lent slice of descriptions, as a switch of the script says.
#![tactic(auto)]

mod lists;
mod reading;
mod records;
mod tables;

pub use tables::Tables;
