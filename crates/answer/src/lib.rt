// What every other crate answers with: the numbered answers, a refusal of reading, the last of the ids, and the tags that actions begin with.
#![tactic(auto)]

mod answer;
mod id;
mod tag;

pub use answer::{Answer, Refusal};
pub use id::LAST_RECORD_ID;
pub use tag::Tag;
