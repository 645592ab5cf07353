//! Messages to bytes, part by part.
ghost use Rattle.std.specs.Prelude.{◌≡◌, ◌+◌, ◌≤◌, ◌++◌, length};
ghost use Rattle.octets.specs.Low.{low_first};
ghost use Rattle.octets.specs.Layout.{octets_of, tagged_of};

use super::Octets;
use crate::parts::Nonces;
use frame::{Message, Pair};

impl Octets {
    /// A message without its tag. Its body and the group key that it carries are sealed already.
    pub fn write(message: &Message, nonces: &Nonces, body: &[u8; 8], key: &[u8; 32]) -> Octets
        ensures bytes { result ≡ tagged_of message.now nonces.now.anonce nonces.now.snonce body.now key.now }
        ensures room { length result ≤ 124 }
    {
        let mut out = Octets::new();
        match *message {
            Message::Begin { gate, hand, .. } => {
                out.push_number::<1>(0);
                out.push_number::<1>(gate);
                out.push_number::<2>(hand);
                out.push_slice(&nonces.anonce);
            }
            Message::Reply { pair } => {
                out.push_number::<1>(1);
                out.push_pair(&pair, nonces);
            }
            Message::Take {
                group,
                counter,
                pair,
            } => {
                out.push_number::<1>(2);
                out.push_number::<8>(group);
                out.push_number::<8>(counter);
                out.push_pair(&pair, nonces);
                out.push_slice(key);
            }
            Message::Taken { pair } => {
                out.push_number::<1>(3);
                out.push_pair(&pair, nonces);
            }
            Message::Renew {
                round,
                group,
                counter,
                pair,
            } => {
                out.push_number::<1>(4);
                out.push_number::<8>(round);
                out.push_number::<8>(group);
                out.push_number::<8>(counter);
                out.push_pair(&pair, nonces);
                out.push_slice(key);
            }
            Message::Load {
                direction,
                counter,
                pair,
                ..
            } => {
                out.push_number::<1>(5);
                out.push_number::<1>(u64::from(direction));
                out.push_number::<8>(counter);
                out.push_slice(body);
                out.push_pair(&pair, nonces);
            }
            Message::All {
                gate,
                group,
                counter,
                ..
            } => {
                out.push_number::<1>(6);
                out.push_number::<1>(gate);
                out.push_number::<8>(group);
                out.push_number::<8>(counter);
                out.push_slice(body);
            }
        }
        out
    }

    /// A message with its tag, which a begin has not.
    pub fn write_tagged(
        message: &Message,
        nonces: &Nonces,
        body: &[u8; 8],
        key: &[u8; 32],
        tag: &[u8; 16],
    ) -> Octets
        ensures { result ≡ octets_of message.now nonces.now.anonce nonces.now.snonce body.now key.now tag.now }
    {
        let mut out = Octets::write(message, nonces, body, key);
        match *message {
            Message::Begin { .. } => {}
            Message::Reply { .. }
            | Message::Take { .. }
            | Message::Taken { .. }
            | Message::Renew { .. }
            | Message::Load { .. }
            | Message::All { .. } => out.push_slice(tag),
        }
        out
    }

    /// A gate, a handheld and a nonce of each.
    fn push_pair(&mut self, pair: &Pair, nonces: &Nonces)
        requires { length self.old + 67 ≤ 140 }
        ensures bytes { self.new ≡ self.old ++ low_first 1 pair.now.gate ++ low_first 2 pair.now.hand ++ nonces.now.anonce ++ nonces.now.snonce }
        ensures len { length self.new ≡ length self.old + 67 }
    {
        self.push_number::<1>(pair.gate);
        self.push_number::<2>(pair.hand);
        self.push_slice(&nonces.anonce);
        self.push_slice(&nonces.snonce);
    }
}
