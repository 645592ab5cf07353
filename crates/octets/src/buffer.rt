//! Room for the longest message.
ghost use Rattle.std.specs.Prelude.{◌≡◌, ◌+◌, ◌<◌, ◌≤◌, [], ◌∷◌, ◌++◌, length, Some, None};
ghost use Rattle.octets.specs.Low.{low_first};

use crate::numbers::low_bytes;
use std::marker::Model;

mod write;

/// How long the longest message is.
const ROOM: usize = 140;

/// A message in bytes.
#[derive(Clone, Copy)]
pub struct Octets {
    bytes: [u8; ROOM],
    len: usize,
}

// Clauses see what is written.
impl Model for Octets {
    ghost use Rattle.std.specs.Prelude.{List, ℕ, length, take};
    ghost use Rattle.octets.specs.Buffer.{IsFilled, filled, length_written, filled_again};

    ghost Value = { List ℕ };

    ghost view = { λ o. take o.len o.bytes };

    ghost invariant = { λ o. IsFilled o.bytes o.len };

    ghost inverse = { λ x. record { bytes = filled x; len = length x } };

    ghost inverse_ok = { λ o h i. record {
      bytes = filled_again o.bytes o.len h i;
      len = length_written o.bytes o.len h i;
    } };
}

impl Octets {
    /// Nothing is written yet.
    pub fn new() -> Octets
        ensures { result ≡ [] }
    {
        Octets {
            bytes: [0; ROOM],
            len: 0,
        }
    }

    /// What was written.
    pub fn as_slice(&self) -> &[u8]
        ensures { result.now ≡ self.now }
    {
        &self.bytes[..self.len]
    }

    /// One more byte; refused where there is no room for it.
    pub fn push(&mut self, byte: u8) -> Option<()>
        ensures { elim result [ Some _ ↦ (length self.old < 140) × (self.new ≡ self.old ++ byte ∷ []) | None ↦ (140 ≤ length self.old) × (self.new ≡ self.old) ] }
    {
        if self.len == ROOM {
            return None;
        }
        self.push_slice(&[byte]);
        Some(())
    }

    /// The tag, behind what it is over; refused where a tag has no room.
    pub fn push_tag(&mut self, tag: &[u8; 16]) -> Option<()>
        ensures { elim result [ Some _ ↦ (length self.old ≤ 124) × (self.new ≡ self.old ++ tag.now) | None ↦ (124 < length self.old) × (self.new ≡ self.old) ] }
    {
        if self.len > ROOM - tag.len() {
            return None;
        }
        self.push_slice(tag);
        Some(())
    }

    fn push_slice(&mut self, part: &[u8])
        requires { length self.old + length part.now ≤ 140 }
        ensures bytes { self.new ≡ self.old ++ part.now }
        ensures len { length self.new ≡ length self.old + length part.now }
    {
        let from = self.len;
        let to = from + part.len();
        self.bytes[from..to].copy_from_slice(part);
        self.len = to;
    }

    /// The lowest bytes of a number.
    fn push_number<const N: usize>(&mut self, n: u64)
        requires { length self.old + N ≤ 140 }
        ensures bytes { self.new ≡ self.old ++ low_first N n }
        ensures len { length self.new ≡ length self.old + N }
    {
        self.push_slice(&low_bytes::<N>(n));
    }
}
