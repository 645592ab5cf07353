//! A gate over bytes: what it does with any bytes, and of itself.

#![tactic(auto)]

mod acting;
mod hearing;
mod held;
mod keys;
mod lookup;
mod saying;

pub use held::GateLink;
