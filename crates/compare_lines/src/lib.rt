// The fields of a command, the bytes of an answer, and both as hex digits. What a command does isn't known here.
#![tactic(auto)]

mod buffer;
mod fault;
mod fields;
mod hex;
mod kind;
mod line;
mod place;

pub use buffer::Buffer;
pub use fault::Fault;
pub use fields::Fields;
pub use hex::{encode, value_of};
pub use kind::{kind_of, known_kind};
pub use line::Line;
pub use place::refused_at;
