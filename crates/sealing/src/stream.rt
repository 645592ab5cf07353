//! Keystreams: which one covers what a message seals.
ghost use Rattle.std.specs.Prelude.{◌≡◌};
ghost use Rattle.frame.specs.Row.{flag};
ghost use Rattle.sealing.specs.Seal.{label_of, direction_byte, stream_counter, stream_place, keystream as keystream_of};

use crate::bytes::joined;
use crate::vault::{Vault, digest};
use frame::{Direction, Message};
use octets::low_bytes;

/// `N` bytes of a message's keystream.
#[tactic(auto, unfolding(crate::specs::Seal::keystream))]
pub(crate) fn keystream<const N: usize, V: Vault>(
    vault: &V,
    key: &[u8; 32],
    message: &Message,
) -> [u8; N]
    ensures { result ≡ keystream_of (V.holds vault.now).hash key.now message.now N }
{
    let place = stream_place(direction(message), stream_counter(message));
    match *message {
        Message::Take { .. } => digest(vault, b"take", key, &place),
        Message::Renew { .. } => digest(vault, b"keys", key, &place),
        Message::Load { .. } | Message::All { .. } => digest(vault, b"seal", key, &place),
        Message::Begin { .. } | Message::Reply { .. } | Message::Taken { .. } => {
            digest(vault, b"", key, &place)
        }
    }
}

/// Which way it goes: down from the gate, or up to it.
fn direction(message: &Message) -> Direction
    ensures { flag result ≡ direction_byte message.now }
{
    match *message {
        Message::Begin { .. }
        | Message::Take { .. }
        | Message::Renew { .. }
        | Message::All { .. } => Direction::Down,
        Message::Reply { .. } | Message::Taken { .. } => Direction::Up,
        Message::Load { direction, .. } => direction,
    }
}

/// A take's counts by the group key that it carries: said again it seals the same text, and no two keys.
fn stream_counter(message: &Message) -> u64
    ensures { result ≡ stream_counter message.now }
{
    match *message {
        Message::Begin { .. } | Message::Reply { .. } | Message::Taken { .. } => 0,
        Message::Take { group, .. } => group,
        Message::Renew { round, .. } => round,
        Message::Load { counter, .. } | Message::All { counter, .. } => counter,
    }
}

fn stream_place(direction: Direction, counter: u64) -> [u8; 9]
    ensures { result ≡ stream_place (flag direction) counter }
{
    joined(
        &low_bytes::<1>(u64::from(direction)),
        &low_bytes::<8>(counter),
    )
}
