//! Rows and messages are two forms of one thing.
ghost use Rattle.std.specs.Prelude.{◌≡◌, true, false, Ok, Err};
ghost use Rattle.frame.specs.Row.{code, is_small, is_message};

use crate::message::{Message, Refusal};
use crate::row::Row;

/// Reading what was written gives the message, if its numbers are below 2^49.
pub fn write_then_read(message: &Message) -> Result<Message, Refusal>
    ensures { is_small (code message.now) ≡ true → result ≡ Ok message.now }
{
    Message::read(message.row().as_slice())
}

/// Writing what was read gives the row.
#[tactic(auto, using(crate::proofs::RoundTrip::row_again))]
pub fn read_then_write(row: &[u64]) -> Result<Row, Refusal>
    ensures { elim result [ Ok again ↦ again ≡ row.now | Err e ↦ is_message row.now ≡ false ] }
{
    let message = Message::read(row)?;
    Ok(message.row())
}
