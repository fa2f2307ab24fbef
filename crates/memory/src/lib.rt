// The three kinds together in two lent memories, of words and of bytes: the shared overlays, or the keys and bytes of a list.
#![tactic(auto)]

mod counts;
mod overlays;
mod span;
mod together;

pub use counts::Counts;
pub use overlays::LogOverlays;
pub use span::{Holder, Span, span_of};
pub use together::{all_kept, kept_in, put_in, remove_in};
