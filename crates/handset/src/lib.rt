//! A handheld: what it does with rows of numbers and of itself.

#![tactic(auto)]

mod calls;
mod hand;
mod handset;
mod peer;
mod rules;

pub use hand::Hand;
pub use handset::Handset;
