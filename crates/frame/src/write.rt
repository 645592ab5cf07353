//! Messages to rows.
ghost use Rattle.std.specs.Prelude.{◌≡◌, []};
ghost use Rattle.frame.specs.Row.{code, nonce_row, pair_row};

use crate::message::{Message, Nonce, Pair};
use crate::row::Row;

impl Message {
    /// The message's row.
    pub fn row(&self) -> Row
        ensures { result ≡ code self.now }
    {
        match *self {
            Message::Begin { gate, hand, anonce } => Row::of([0, gate, hand]).then(
                anonce.numbers(),
            ),
            Message::Reply { pair } => Row::of([1]).then(pair.numbers()),
            Message::Take {
                group,
                counter,
                pair,
            } => Row::of([2, group, counter]).then(pair.numbers()),
            Message::Taken { pair } => Row::of([3]).then(pair.numbers()),
            Message::Renew {
                round,
                group,
                counter,
                pair,
            } => Row::of([4, round, group, counter]).then(pair.numbers()),
            Message::Load {
                direction,
                counter,
                body,
                pair,
            } => Row::of([5, u64::from(direction), counter, body]).then(pair.numbers()),
            Message::All {
                gate,
                group,
                counter,
                body,
            } => Row::of([6, gate, group, counter, body]),
        }
    }
}

impl Nonce {
    /// Its numbers, as they stand in a row.
    pub fn numbers(&self) -> [u64; 3]
        ensures { result ≡ nonce_row self.now [] }
    {
        [self.kind, self.node, self.index]
    }
}

impl Pair {
    /// Its numbers, as they stand in a row.
    pub fn numbers(&self) -> [u64; 8]
        ensures { result ≡ pair_row self.now }
    {
        let (a, s) = (self.anonce, self.snonce);
        [
            self.gate, self.hand, a.kind, a.node, a.index, s.kind, s.node, s.index,
        ]
    }
}
