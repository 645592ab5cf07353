//! Both ends over bytes, and the world of bytes: what each end holds beside the rules' numbers, and what both kinds share.
//! The definitions are in specs/: Keys, Hands, Gates, World, Theorems.

#![tactic(auto)]

mod effect;
mod keys;
mod lookup;
mod opening;

pub use effect::SealedEffect;
pub use keys::{GateKeys, HandKeys, TagKey};
pub use lookup::held_key;
pub use opening::open_message;
pub use sealing::PairKeys;
