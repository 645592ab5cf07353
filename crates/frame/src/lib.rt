//! Messages as rows of numbers: what is said over the air before it is sealed into bytes.

#![tactic(auto)]

mod convert;
mod laws;
mod message;
mod read;
mod row;
mod write;

pub use laws::{read_then_write, write_then_read};
pub use message::{Direction, Message, Node, Nonce, Pair, Refusal};
pub use row::{NUMBER_LIMIT, ROW, Row};
