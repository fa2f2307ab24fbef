// What an action does to the image.
#![tactic(auto)]

mod apply;
mod place;
mod store;

pub use apply::apply_action;
