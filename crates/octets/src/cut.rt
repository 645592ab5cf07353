//! Bytes to the parts of a message.
ghost use Rattle.std.specs.Prelude.{◌≡◌};
ghost use Rattle.frame.specs.Row.{padded};
ghost use Rattle.octets.specs.Layout.{nonce_of};
ghost use Rattle.octets.specs.Cutting.{cut, cut_as, opened, Within};

use crate::numbers::number_at;
use crate::parts::{Cut, Nonces};
use crate::reader::Reader;
use frame::{Nonce, ROW, Refusal, Row};

impl Cut {
    /// The parts of a message. What is of no kind, or not as long as its kind, is no row.
    pub fn parse(bytes: &[u8]) -> Result<Cut, Refusal>
        ensures parts { result ≡ cut bytes.now }
        ensures within { Within bytes.now result }
    {
        match *bytes {
            [0, ..] => begin(bytes),
            [1, ..] | [3, ..] => answer(bytes),
            [2, ..] => take(bytes),
            [4, ..] => renew(bytes),
            [5, ..] => load(bytes),
            [6, ..] => all(bytes),
            _ => Err(Refusal::NoRow),
        }
    }

    /// The row with its body opened.
    pub fn open(&self, body: u64) -> Row
        ensures { result ≡ opened body self.now.row }
    {
        match *self.row.as_slice() {
            [5, ..] => self.row.with(3, body),
            [6, ..] => self.row.with(4, body),
            _ => self.row,
        }
    }

    /// The twelve places of the row with its body opened, also where the row ends before its body's place.
    pub fn open_padded(&self, body: u64) -> [u64; ROW]
        ensures { result ≡ opened body (padded 12 self.now.row) }
    {
        let mut places = self.row.padded();
        match places[0] {
            5 => places[3] = body,
            6 => places[4] = body,
            _ => {}
        }
        places
    }
}

/// The three numbers of a nonce.
pub fn nonce_of(bytes: &[u8; 32]) -> Nonce
    ensures { result ≡ nonce_of bytes.now }
{
    Nonce {
        kind: number_at::<1>(bytes, 0),
        node: number_at::<2>(bytes, 1),
        index: number_at::<8>(bytes, 3),
    }
}

fn begin(bytes: &[u8]) -> Result<Cut, Refusal>
    ensures parts { result ≡ cut_as 0 bytes.now }
    ensures within { Within bytes.now result }
{
    let mut reader = Reader::of(bytes, 36)?;
    let kind = reader.number::<1>();
    let gate = reader.number::<1>();
    let hand = reader.number::<2>();
    let anonce = reader.bytes();
    Ok(Cut {
        row: Row::of([kind, gate, hand]).then(nonce_of(&anonce).numbers()),
        nonces: Nonces {
            anonce,
            ..Nonces::NONE
        },
        body: [0; 8],
        key: [0; 32],
        tagged: 36,
        tag: [0; 16],
    })
}

/// A reply or a taken.
fn answer(bytes: &[u8]) -> Result<Cut, Refusal>
    ensures reply { result ≡ cut_as 1 bytes.now }
    ensures taken { result ≡ cut_as 3 bytes.now }
    ensures within { Within bytes.now result }
{
    let mut reader = Reader::of(bytes, 84)?;
    let kind = reader.number::<1>();
    let (pair, nonces) = reader.pair();
    let row = Row::of([kind]).then(pair.numbers());
    Ok(reader.tagged(row, nonces, [0; 8], [0; 32]))
}

fn take(bytes: &[u8]) -> Result<Cut, Refusal>
    ensures parts { result ≡ cut_as 2 bytes.now }
    ensures within { Within bytes.now result }
{
    let mut reader = Reader::of(bytes, 132)?;
    let kind = reader.number::<1>();
    let group = reader.number::<8>();
    let counter = reader.number::<8>();
    let (pair, nonces) = reader.pair();
    let key = reader.bytes();
    let row = Row::of([kind, group, counter]).then(pair.numbers());
    Ok(reader.tagged(row, nonces, [0; 8], key))
}

fn renew(bytes: &[u8]) -> Result<Cut, Refusal>
    ensures parts { result ≡ cut_as 4 bytes.now }
    ensures within { Within bytes.now result }
{
    let mut reader = Reader::of(bytes, 140)?;
    let kind = reader.number::<1>();
    let round = reader.number::<8>();
    let group = reader.number::<8>();
    let counter = reader.number::<8>();
    let (pair, nonces) = reader.pair();
    let key = reader.bytes();
    let row = Row::of([kind, round, group, counter]).then(pair.numbers());
    Ok(reader.tagged(row, nonces, [0; 8], key))
}

fn load(bytes: &[u8]) -> Result<Cut, Refusal>
    ensures parts { result ≡ cut_as 5 bytes.now }
    ensures within { Within bytes.now result }
{
    let mut reader = Reader::of(bytes, 101)?;
    let kind = reader.number::<1>();
    let direction = reader.number::<1>();
    let counter = reader.number::<8>();
    let body = reader.bytes();
    let (pair, nonces) = reader.pair();
    let row = Row::of([kind, direction, counter, 0]).then(pair.numbers());
    Ok(reader.tagged(row, nonces, body, [0; 32]))
}

fn all(bytes: &[u8]) -> Result<Cut, Refusal>
    ensures parts { result ≡ cut_as 6 bytes.now }
    ensures within { Within bytes.now result }
{
    let mut reader = Reader::of(bytes, 42)?;
    let kind = reader.number::<1>();
    let gate = reader.number::<1>();
    let group = reader.number::<8>();
    let counter = reader.number::<8>();
    let body = reader.bytes();
    let row = Row::of([kind, gate, group, counter, 0]);
    Ok(reader.tagged(row, Nonces::NONE, body, [0; 32]))
}
