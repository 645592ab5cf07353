//! The lines of the programs `hand` and `gate`, read and written.

#![tactic(auto)]

mod answer;
mod command;
mod delivery;
mod hex;
mod laws;
mod text;

pub use answer::Answer;
pub use command::{Command, Form, parse};
pub use delivery::Delivery;
pub use hex::{Hex, from_hex};
pub use laws::laws_stand;
