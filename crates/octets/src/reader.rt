//! The bytes of a message, part by part.
ghost use Rattle.std.specs.Prelude.{◌≡◌, ◌≢◌, ◌+◌, ◌≤◌, length, take, drop, Ok, Err};
ghost use Rattle.octets.specs.Low.{from_low};
ghost use Rattle.octets.specs.Cutting.{pair_from};

use crate::cut::nonce_of;
use crate::numbers::{bytes_at, number_at};
use crate::parts::{Cut, Nonces};
use frame::{Pair, Refusal, Row};

/// Bytes that are read from the front.
#[derive(Drop)]
pub(crate) struct Reader<'a> {
    bytes: &'a [u8],
    at: usize,
}

impl<'a> Reader<'a> {
    /// A message of a kind that is so many bytes long.
    pub(crate) fn of(bytes: &'a [u8], len: usize) -> Result<Reader<'a>, Refusal>
        ensures { elim result [ Ok reader ↦ (length bytes.now ≡ len) × (reader ≡ record { bytes = bytes.entry; at = 0 }) | Err e ↦ (length bytes.now ≢ len) × (e ≡ Refusal.NoRow) ] }
    {
        if bytes.len() != len {
            return Err(Refusal::NoRow);
        }
        Ok(Reader { bytes, at: 0 })
    }

    /// The next bytes.
    pub(crate) fn bytes<const N: usize>(&mut self) -> [u8; N]
        requires { self.old.at + N ≤ length self.old.bytes.now }
        ensures value { result ≡ take N (drop self.old.at self.old.bytes.now) }
        ensures next { self.new ≡ record { bytes = self.old.bytes; at = self.old.at + N } }
    {
        let at = self.at;
        self.at = at + N;
        bytes_at(self.bytes, at)
    }

    /// The number in the next bytes.
    pub(crate) fn number<const N: usize>(&mut self) -> u64
        requires few { N ≤ 8 }
        requires there { self.old.at + N ≤ length self.old.bytes.now }
        ensures value { result ≡ from_low (take N (drop self.old.at self.old.bytes.now)) }
        ensures next { self.new ≡ record { bytes = self.old.bytes; at = self.old.at + N } }
    {
        let at = self.at;
        self.at = at + N;
        number_at::<N>(self.bytes, at)
    }

    /// A gate, a handheld and a nonce of each.
    pub(crate) fn pair(&mut self) -> (Pair, Nonces)
        requires { self.old.at + 67 ≤ length self.old.bytes.now }
        ensures pair { result.0 ≡ pair_from self.old.at self.old.bytes.now }
        ensures nonces { result.1 ≡ record { anonce = take 32 (drop (self.old.at + 3) self.old.bytes.now); snonce = take 32 (drop (self.old.at + 35) self.old.bytes.now) } }
        ensures next { self.new ≡ record { bytes = self.old.bytes; at = self.old.at + 67 } }
    {
        let gate = self.number::<1>();
        let hand = self.number::<2>();
        let nonces = Nonces {
            anonce: self.bytes(),
            snonce: self.bytes(),
        };
        let pair = Pair {
            gate,
            hand,
            anonce: nonce_of(&nonces.anonce),
            snonce: nonce_of(&nonces.snonce),
        };
        (pair, nonces)
    }

    /// The parts of a message of which all was read but its tag.
    pub(crate) fn tagged(&self, row: Row, nonces: Nonces, body: [u8; 8], key: [u8; 32]) -> Cut
        requires { self.now.at + 16 ≤ length self.now.bytes.now }
        ensures { result ≡ record { row = row; nonces = nonces; body = body; key = key; tagged = self.now.at; tag = take 16 (drop self.now.at self.now.bytes.now) } }
    {
        Cut {
            row,
            nonces,
            body,
            key,
            tagged: self.at,
            tag: bytes_at(self.bytes, self.at),
        }
    }
}
