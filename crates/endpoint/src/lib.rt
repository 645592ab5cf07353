//! One end of a pairwise key: its offer, its key, its counters, and the rules that both kinds of end share.

#![tactic(auto)]

mod call;
mod counters;
mod effect;
mod offer;
mod rules;
mod session;
mod states;

pub use call::{Addressee, Heard, check, write};
pub use effect::Effect;
pub use offer::Offer;
pub use rules::{hear_load, is_this, same_nonce, same_pair, send_load};
pub use session::{Session, State};
