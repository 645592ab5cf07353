//! The rules of a gate for one handheld.
ghost use Rattle.std.specs.Prelude.{◌≡◌, true};
ghost use Rattle.protocol.specs.Rules.{gate_invite, gate_reply, gate_taken, gate_rekey};
ghost use Rattle.endpoint.specs.Session.{is_bounded};
ghost use Rattle.endpoint.specs.Effects.{out_of};

use endpoint::{Effect, Offer, Session, is_this};
use frame::{Message, Nonce, Pair};
use protocol::{HandPeer, Handshake};

/// Opens a handshake; nothing is on offer any more.
pub fn invite(peer: &mut HandPeer, gate: u64, hand: u64, anonce: Nonce) -> Effect
    requires { is_bounded peer.old.end ≡ true }
    ensures out { out_of result peer.new ≡ gate_invite gate hand anonce peer.old }
    ensures bounded { is_bounded peer.new.end ≡ true }
{
    Session::change(&mut peer.end, Session::withdraw);
    peer.handshake = Some(Handshake { anonce });
    Effect::say(Message::Begin { gate, hand, anonce })
}

/// Hears a reply to the handshake that is open: its pair is on offer, unless it is in use. The handshake stays open,
/// since a later reply may be the right one.
pub fn hear_reply(peer: &mut HandPeer, group: u64, counter: u64, pair: Pair) -> Effect
    requires { is_bounded peer.old.end ≡ true }
    ensures out { out_of result peer.new ≡ gate_reply group counter pair peer.old }
    ensures bounded { is_bounded peer.new.end ≡ true }
{
    let answers = peer
        .handshake
        .is_some_and(|handshake| pair.anonce == handshake.anonce);
    if !answers || is_this(&pair, &peer.end.key) {
        return Effect::nothing();
    }
    Session::change(&mut peer.end, |session| session.offer(Offer { pair }));
    Effect::say(Message::Take {
        group,
        counter,
        pair,
    })
}

/// Hears taken: the pair on offer comes into use, and the handshake is closed.
pub fn hear_taken(peer: &mut HandPeer, pair: Pair) -> Effect
    requires { is_bounded peer.old.end ≡ true }
    ensures out { out_of result peer.new ≡ gate_taken pair peer.old }
    ensures bounded { is_bounded peer.new.end ≡ true }
{
    if is_this(&pair, &peer.end.offered) {
        Session::change(&mut peer.end, Session::install);
        peer.handshake = None;
    }
    Effect::nothing()
}

/// Gives word of the group key under the pair in use, if there is one, in the next round, while there is one.
pub fn rekey(peer: &mut HandPeer, group: u64, counter: u64) -> Effect
    requires { is_bounded peer.old.end ≡ true }
    ensures out { out_of result peer.new ≡ gate_rekey group counter peer.old }
    ensures bounded { is_bounded peer.new.end ≡ true }
{
    let Some(pair) = peer.end.key else {
        return Effect::nothing();
    };
    match Session::count(&mut peer.end, Session::next_round) {
        Some(round) => Effect::say(Message::Renew {
            round,
            group,
            counter,
            pair,
        }),
        None => Effect::nothing(),
    }
}
