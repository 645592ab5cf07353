//! Bytes and messages are two forms of one thing.
ghost use Rattle.std.specs.Prelude.{◌≡◌, Ok};
ghost use Rattle.frame.specs.Row.{code, padded};
ghost use Rattle.octets.specs.Laws.{Fits, blank, with_body, parts_of, Again};

use crate::buffer::Octets;
use crate::parts::{Cut, Nonces};
use frame::{Message, ROW, Refusal, Row};

/// Cutting what was written gives back its parts, if its numbers fit their places and its nonces are those of
/// their bytes.
#[tactic(auto, using(crate::proofs::RoundTrip::written_is_cut))]
pub fn write_then_parse(
    message: &Message,
    nonces: &Nonces,
    body: &[u8; 8],
    key: &[u8; 32],
    tag: &[u8; 16],
) -> Result<Cut, Refusal>
    ensures { Fits message.now nonces.now.anonce nonces.now.snonce body.now key.now tag.now → result ≡ Ok (parts_of message.now nonces.now.anonce nonces.now.snonce body.now key.now tag.now) }
{
    let octets = Octets::write_tagged(message, nonces, body, key, tag);
    Cut::parse(octets.as_slice())
}

/// Writing what was cut gives the bytes.
pub fn parse_then_write(bytes: &[u8]) -> Result<Octets, Refusal>
    ensures { Again bytes.now result }
{
    let cut = Cut::parse(bytes)?;
    let message = Message::read(cut.row.as_slice())?;
    Ok(Octets::write_tagged(&message, &cut.nonces, &cut.body, &cut.key, &cut.tag))
}

/// A row that is opened with the message's body is the message's.
#[tactic(auto, using(crate::proofs::RoundTrip::opened_is))]
pub fn open_gives_message(cut: &Cut, message: &Message, body: u64) -> Row
    ensures { cut.now.row ≡ code (blank message.now) → result ≡ code (with_body body message.now) }
{
    cut.open(body)
}

/// So it is of a row that has only noughts behind the message's numbers.
#[tactic(auto, using(crate::proofs::RoundTrip::padded_opened_is))]
pub fn open_padded_gives_message(cut: &Cut, message: &Message, body: u64) -> [u64; ROW]
    ensures { padded 12 cut.now.row ≡ padded 12 (code (blank message.now)) → result ≡ padded 12 (code (with_body body message.now)) }
{
    cut.open_padded(body)
}
