// A log checked as it comes, in pieces: nothing is applied, and at the close it says what a run over all of them would.
#![tactic(auto)]

mod checker;
mod standing;
mod walk;

pub use checker::{Checked, Closed, LogChecker, Stage};
pub use standing::Standing;
