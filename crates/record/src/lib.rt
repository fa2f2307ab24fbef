// A record's bytes, and the reader that steps through them.
#![tactic(auto)]

mod action;
mod item;
mod mask;
mod opening;
mod reader;

pub use action::{
    InsertAction, InsertIndexAction, InsertRefCountAction, InsertValueAction, LogAction,
};
pub use item::{ReadItem, item_at};
pub use reader::{LogReader, Stepped};
