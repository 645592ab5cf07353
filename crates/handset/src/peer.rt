//! The rules of a handheld for one gate.
ghost use Rattle.std.specs.Prelude.{◌≡◌, ◌^◌, ◌<◌, true};
ghost use Rattle.protocol.specs.Rules.{learns, hand_begin, hand_take, hand_renew, hand_load, hand_all, hand_send};
ghost use Rattle.endpoint.specs.Session.{is_bounded};
ghost use Rattle.endpoint.specs.Effects.{out_of};

use endpoint::{Effect, Offer, Session, is_this};
use frame::{Message, Pair};
use protocol::GatePeer;

/// Hears begin: the pair of both nonces is on offer, in the place of what was.
pub fn hear_begin(peer: &mut GatePeer, pair: Pair) -> Effect
    requires { is_bounded peer.old.end ≡ true }
    ensures out { out_of result peer.new ≡ hand_begin pair peer.old }
    ensures bounded { is_bounded peer.new.end ≡ true }
{
    Session::change(&mut peer.end, |session| session.offer(Offer { pair }));
    Effect::say(Message::Reply { pair })
}

/// Hears take: the pair on offer comes into use. For the pair in use taken is said again, and nothing else.
pub fn hear_take(peer: &mut GatePeer, group: u64, counter: u64, pair: Pair) -> Effect
    requires { is_bounded peer.old.end ≡ true }
    ensures out { out_of result peer.new ≡ hand_take group counter pair peer.old }
    ensures bounded { is_bounded peer.new.end ≡ true }
{
    if is_this(&pair, &peer.end.offered) {
        Session::change(&mut peer.end, Session::install);
        learn(peer, group, counter);
        Effect::say(Message::Taken { pair })
    } else if is_this(&pair, &peer.end.key) {
        Effect::say(Message::Taken { pair }) // its counters go on
    } else {
        Effect::nothing()
    }
}

/// Hears renew under the pair in use, of a round above its own: word of the group key.
pub fn hear_renew(peer: &mut GatePeer, round: u64, group: u64, counter: u64, pair: Pair) -> Effect
    requires bounded { is_bounded peer.old.end ≡ true }
    requires small { round < 2 ^ 49 }
    ensures out { out_of result peer.new ≡ hand_renew round group counter pair peer.old }
    ensures bounded { is_bounded peer.new.end ≡ true }
{
    let advanced = Session::count(&mut peer.end, |session| {
        is_this(&pair, &session.key()) && session.advance(round)
    });
    if advanced {
        learn(peer, group, counter);
    }
    Effect::nothing()
}

/// Word of a group key and of the counter of its next frame: a newer key, or a higher floor of the same; never back.
fn learn(peer: &mut GatePeer, group: u64, counter: u64)
    ensures { peer.new ≡ learns group counter peer.old }
{
    let newer = peer.group < group;
    let higher = group > 0 && peer.group == group && peer.floor < counter;
    if newer || higher {
        peer.group = group;
        peer.floor = counter;
    }
}

/// Hears a frame to all: with a pair in use, under the group key that it has, its counter not below the floor.
pub fn hear_all(peer: &mut GatePeer, gate: u64, group: u64, counter: u64, body: u64) -> Effect
    requires { counter < 2 ^ 49 }
    ensures out { out_of result peer.new ≡ hand_all gate group counter body peer.old }
    ensures same { peer.new.end ≡ peer.old.end }
{
    if peer.end.key.is_some() && group > 0 && group == peer.group && peer.floor <= counter {
        peer.floor = counter + 1;
        Effect::deliver(Message::All {
            gate,
            group,
            counter,
            body,
        })
    } else {
        Effect::nothing()
    }
}
