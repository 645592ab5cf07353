#![tactic(auto)]

// The script of a radio network, read line by line, and the lines that answer it.
pub mod command;
pub mod fault;
pub mod laws;
pub mod line;
pub mod text;

pub use command::{Command, Form, parse};
pub use fault::{Complaint, LineForm, Malformed};
pub use line::{first_word, number};
pub use text::{HandedOn, Name, Row, Sent};

#[cfg(test)]
mod tests;
