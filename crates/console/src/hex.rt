//! Bytes as hex digits.
ghost use Rattle.std.specs.Prelude.{◌≡◌, ◌<◌, IfSome, Some};
ghost use Rattle.console.specs.Hex.{byte_of, hex_text, message_bytes, nibble_of};

use octets::Octets;
use std::fmt;

// The value of a hex digit, in either case.
fn nibble(digit: u8) -> Option<u8>
    ensures value { result ≡ nibble_of digit }
    ensures small { IfSome result (λ n. n < 16) }
{
    match digit {
        b'0'..=b'9' => Some(digit - b'0'),
        b'A'..=b'F' => Some(digit - b'A' + 10),
        b'a'..=b'f' => Some(digit - b'a' + 10),
        _ => None,
    }
}

// The byte that two hex digits write.
fn byte(high: u8, low: u8) -> Option<u8>
    ensures { result ≡ byte_of (nibble_of high) (nibble_of low) }
{
    let high = nibble(high)?;
    let low = nibble(low)?;
    Some(high * 16 + low)
}

/// The bytes that hex digits write, if these are no more than the longest message has. A longer run, or
/// an odd one, is refused by its length alone.
pub fn from_hex(digits: &[u8]) -> Option<Octets>
    ensures { result ≡ message_bytes digits.now }
{
    if digits.len() % 2 == 1 || digits.len() > 280 {
        return None;
    }
    let mut octets = Octets::new();
    let mut rest = digits;
    while let [high, low, after @ ..] = rest {
        octets.push(byte(*high, *low)?)?;
        rest = after;
    }
    Some(octets)
}

/// Bytes, to be written as hex digits in lower case.
#[derive(Clone, Copy)]
pub struct Hex<'a>(pub &'a [u8]);

impl fmt::Display for Hex<'_> {
    ghost output = { λ hex. Some (hex_text hex.0.now) };

    fn fmt<W: fmt::Write>(&self, f: &mut fmt::Formatter<W>) -> fmt::Result {
        for &byte in self.0 {
            write!(f, "{byte:02x}")?;
        }
        Ok(())
    }
}
