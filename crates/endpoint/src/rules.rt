//! The rules of loads, which both kinds of end share.
ghost use Rattle.std.specs.Prelude.{◌≡◌, ◌^◌, ◌<◌, true, false, Some, None};
ghost use Rattle.protocol.specs.Held.{same_nonce, same_pair, is_this};
ghost use Rattle.protocol.specs.Rules.{end_hears, end_sends};
ghost use Rattle.endpoint.specs.Session.{is_bounded};
ghost use Rattle.endpoint.specs.Effects.{out_of};

use crate::effect::Effect;
use crate::session::Session;
use frame::{Direction, Message, NUMBER_LIMIT, Nonce, Pair};
use protocol::Endpoint;

/// Whether the two name the same key.
pub fn same_pair(p: &Pair, q: &Pair) -> bool
    ensures { result ≡ same_pair p.now q.now }
{
    p == q
}

pub fn same_nonce(a: &Nonce, b: &Nonce) -> bool
    ensures { result ≡ same_nonce a.now b.now }
{
    a == b
}

/// Whether a pair is held, and is this one.
pub fn is_this(pair: &Pair, held: &Option<Pair>) -> bool
    ensures { result ≡ is_this pair.now held.now }
{
    *held == Some(*pair)
}

/// Hears a load under the key in use: it is delivered once, in the order of counters.
pub fn hear_load(
    end: &mut Endpoint,
    direction: Direction,
    counter: u64,
    body: u64,
    pair: Pair,
) -> Effect
    requires bounded { is_bounded end.old ≡ true }
    requires small { counter < 2 ^ 49 }
    ensures out { out_of result end.new ≡ end_hears direction counter body pair end.old }
    ensures bounded { is_bounded end.new ≡ true }
{
    let accepted = Session::count(end, |session| {
        session.key() == Some(pair) && session.accept(counter)
    });
    if accepted {
        Effect::deliver(Message::Load {
            direction,
            counter,
            body,
            pair,
        })
    } else {
        Effect::nothing()
    }
}

/// Sends a load under the key in use, if there is one, with the next counter, while there is one.
pub fn send_load(end: &mut Endpoint, direction: Direction, body: u64) -> Effect
    requires { is_bounded end.old ≡ true }
    ensures out { out_of result end.new ≡ end_sends direction body end.old }
    ensures bounded { is_bounded end.new ≡ true }
{
    let Some(pair) = end.key else {
        return Effect::nothing();
    };
    if body >= NUMBER_LIMIT {
        return Effect::nothing();
    }
    match Session::count(end, Session::next_send) {
        Some(counter) => Effect::say(Message::Load {
            direction,
            counter,
            body,
            pair,
        }),
        None => Effect::nothing(),
    }
}
