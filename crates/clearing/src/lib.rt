// Clearing: an accepted record read again, and its entries taken out of the shared overlays.
#![tactic(auto)]

mod clear;
mod end_of_reading;

pub use end_of_reading::{EndRead, end_read, end_read_kept};
