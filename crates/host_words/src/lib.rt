// A host's states as words: a directory, a reader, a change list's head, the overlays' head. Any words load: those of another
// length, or with one out of its field's range, as a state that breaks a rule, so that every call that is handed it answers 13.
#![tactic(auto)]

mod head;
mod list;
mod overlays;
mod reader;
mod tables;

pub use head::{keep, make};
pub use list::{list_of, list_words};
pub use overlays::{overlays_of, overlays_words};
pub use reader::{reader_of, reader_words};
pub use tables::{directory_of, kind_of};
