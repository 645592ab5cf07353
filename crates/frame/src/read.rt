//! Rows to messages.
ghost use Rattle.std.specs.Prelude.{◌≡◌, ◌^◌, length, Ok, Err, ◌≢◌, nat_lt};
ghost use Rattle.frame.specs.Row.{is_small, is_message, has_shape, nonce_at, pair_at, Reads};

use crate::message::{Direction, Message, Nonce, Pair, Refusal};
use crate::row::NUMBER_LIMIT;

impl Message {
    /// The message of a row: as long as its kind says, with a load's flag 0 or 1 and every number below 2^49.
    pub fn read(row: &[u64]) -> Result<Message, Refusal>
        ensures { Reads (is_message row.now) row.now result }
    {
        if !is_small(row) {
            return Err(Refusal::NoMessage);
        }
        shaped(row)
    }
}

/// Whether every number is below 2^49.
fn is_small(row: &[u64]) -> bool
    ensures { result ≡ is_small row.now }
{
    row.iter().all(|number| is_small_number(*number))
}

fn is_small_number(number: u64) -> bool
    ensures { result ≡ nat_lt number (2 ^ 49) }
{
    number < NUMBER_LIMIT
}

/// The message of a row by its kind and length, whatever its numbers.
fn shaped(row: &[u64]) -> Result<Message, Refusal>
    ensures { Reads (has_shape row.now) row.now result }
{
    match *row {
        [0, gate, hand, kind, node, index] => Ok(Message::Begin {
            gate,
            hand,
            anonce: Nonce { kind, node, index },
        }),
        [1, ref pair @ ..] => Ok(Message::Reply {
            pair: Pair::read(pair)?,
        }),
        [2, group, counter, ref pair @ ..] => Ok(Message::Take {
            group,
            counter,
            pair: Pair::read(pair)?,
        }),
        [3, ref pair @ ..] => Ok(Message::Taken {
            pair: Pair::read(pair)?,
        }),
        [4, round, group, counter, ref pair @ ..] => Ok(Message::Renew {
            round,
            group,
            counter,
            pair: Pair::read(pair)?,
        }),
        [5, flag, counter, body, ref pair @ ..] => Ok(Message::Load {
            direction: Direction::try_from(flag)?,
            counter,
            body,
            pair: Pair::read(pair)?,
        }),
        [6, gate, group, counter, body] => Ok(Message::All {
            gate,
            group,
            counter,
            body,
        }),
        _ => Err(Refusal::NoMessage),
    }
}

impl Pair {
    /// A pair from its eight numbers.
    fn read(numbers: &[u64]) -> Result<Pair, Refusal>
        ensures { elim result [ Ok p ↦ (length numbers.now ≡ 8) × (p ≡ pair_at numbers.now 0) | Err e ↦ (length numbers.now ≢ 8) × (e ≡ Refusal.NoMessage) ] }
    {
        let [gate, hand, akind, anode, aindex, skind, snode, sindex] = *numbers else {
            return Err(Refusal::NoMessage);
        };
        Ok(Pair {
            gate,
            hand,
            anonce: Nonce {
                kind: akind,
                node: anode,
                index: aindex,
            },
            snonce: Nonce {
                kind: skind,
                node: snode,
                index: sindex,
            },
        })
    }
}
