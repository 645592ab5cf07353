//! A gate: what it does with rows of numbers and of itself.

#![tactic(auto)]

mod calls;
mod gateway;
mod peer;
mod post;
mod rules;

pub use gateway::Gateway;
pub use post::Post;
