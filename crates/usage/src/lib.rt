//! How the programs are called: their arguments, what is told of wrong ones, and their help.

#![tactic(auto)]

mod arguments;
mod ending;
mod text;

pub use arguments::{Argument, Arguments, Fault, Misuse, Program, Request};
pub use ending::status;
pub use text::{DECK_HELP, GATE_HELP, HAND_HELP, KIT, VERSION};
