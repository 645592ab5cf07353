//! The rules of a gate: one peer is lent to its rule at a time.
ghost use Rattle.std.specs.Prelude.{◌≡◌, ◌+◌, ◌≤◌, true, if◌then◌else◌};
ghost use Rattle.std.specs.Fn.{FnOnceReturnsAtMut};
ghost use Rattle.frame.specs.Row.{code, is_small};
ghost use Rattle.protocol.specs.Held.{new_gate};
ghost use Rattle.protocol.specs.Rules.{quiet, limit, has_next, gate_at, gate_send, gate_rekey, gate_hears, gate_invites, gate_broadcasts, gate_rotates, gate_forgets};
ghost use Rattle.endpoint.specs.Effects.{out_of};
ghost use Rattle.endpoint.specs.Steps.{Keeps};
ghost use Rattle.gateway.specs.Peers.{is_bounded_peer, StepsAt};
ghost use Rattle.gateway.specs.State.{state_of};

use crate::gateway::Gateway;
use crate::peer::{hear_reply, hear_taken, invite, rekey};
use endpoint::{Effect, hear_load, send_load};
use frame::{Direction, Message, NUMBER_LIMIT, Nonce};
use protocol::{COUNTER_LIMIT, HandPeer};

impl Gateway {
    pub fn new(hands: u16) -> Gateway
        requires { hands ≤ 512 }
        ensures { state_of result ≡ new_gate hands }
    {
        Gateway {
            draws: 0,
            group: 1,
            counter: 0,
            many: hands,
            peers: [HandPeer::NEW; 512],
        }
    }

    /// What happens for one handheld, if there is such a handheld; so many nonces are drawn then.
    fn at<F: FnOnce(&mut HandPeer) -> Effect>(&mut self, draws: u64, hand: u64, step: F) -> Effect
        requires callable { (x : _) → is_bounded_peer x.now ≡ true → F.pre step x }
        requires bounded { Keeps is_bounded_peer (FnOnceReturnsAtMut F.FnOnce step) }
        ensures { StepsAt (FnOnceReturnsAtMut F.FnOnce step) draws hand result (state_of self.old) (state_of self.new) }
    {
        if hand >= self.many as u64 {
            return Effect::nothing();
        }
        self.draws = draws;
        step(&mut self.peers[hand as usize])
    }

    /// Draws a nonce, while it may, and opens a handshake.
    pub(crate) fn invite(&mut self, g: u64, hand: u64) -> Effect
        ensures { out_of result (state_of self.new) ≡ gate_invites g hand (state_of self.old) }
    {
        let index = self.draws;
        if index >= COUNTER_LIMIT {
            return Effect::nothing();
        }
        let anonce = Nonce {
            kind: 0,
            node: g,
            index,
        };
        self.at(index + 1, hand, |peer| invite(peer, g, hand, anonce))
    }

    /// Sends a body to a handheld.
    pub(crate) fn send(&mut self, hand: u64, body: u64) -> Effect
        ensures { out_of result (state_of self.new) ≡ gate_at self.old.draws hand (gate_send body) (state_of self.old) }
    {
        self.at(
            self.draws,
            hand,
            |peer| send_load(&mut peer.end, Direction::Down, body),
        )
    }

    /// Gives a handheld word of the group key and of the counter of its next frame.
    pub(crate) fn rekey(&mut self, hand: u64) -> Effect
        ensures { out_of result (state_of self.new) ≡ gate_at self.old.draws hand (gate_rekey self.old.group self.old.counter) (state_of self.old) }
    {
        let (draws, group, counter) = (self.draws, self.group, self.counter);
        self.at(draws, hand, |peer| rekey(peer, group, counter))
    }

    /// Sends a body to all, with the next counter, while there is one.
    pub(crate) fn broadcast(&mut self, g: u64, body: u64) -> Effect
        ensures { out_of result (state_of self.new) ≡ gate_broadcasts g body (state_of self.old) }
    {
        let counter = self.counter;
        if body >= NUMBER_LIMIT || counter >= COUNTER_LIMIT {
            return Effect::nothing();
        }
        self.counter = counter + 1;
        Effect::say(Message::All {
            gate: g,
            group: self.group,
            counter,
            body,
        })
    }

    /// Takes the next group key, while there is one; its counter begins at 0.
    pub(crate) fn rotate(&mut self)
        ensures { quiet (state_of self.new) ≡ gate_rotates (state_of self.old) }
    {
        if self.group < COUNTER_LIMIT {
            self.group += 1;
            self.counter = 0;
        }
    }

    /// All is forgotten but how many nonces were drawn and which group keys there were: the next one is taken, and if
    /// there is none, nothing is sent to all any more.
    pub(crate) fn forget(&mut self)
        ensures { quiet (state_of self.new) ≡ gate_forgets (state_of self.old) }
    {
        let mut fresh = Gateway::new(self.many);
        fresh.draws = self.draws;
        (fresh.group, fresh.counter) = next_group(self.group);
        *self = fresh;
    }

    /// Hears a message that is for it, whose numbers are below 2^49.
    pub(crate) fn hear_message(&mut self, message: Message) -> Effect
        requires { is_small (code message) ≡ true }
        ensures { out_of result (state_of self.new) ≡ gate_hears message (state_of self.old) }
    {
        let (draws, group, counter) = (self.draws, self.group, self.counter);
        match message {
            Message::Reply { pair } => {
                self.at(
                    draws,
                    pair.hand,
                    |peer| hear_reply(peer, group, counter, pair),
                )
            }
            Message::Taken { pair } => self.at(draws, pair.hand, |peer| hear_taken(peer, pair)),
            Message::Load {
                direction: Direction::Up,
                counter,
                body,
                pair,
            } => self.at(draws, pair.hand, |peer| {
                hear_load(&mut peer.end, Direction::Up, counter, body, pair)
            }),
            Message::Begin { .. }
            | Message::Take { .. }
            | Message::Renew { .. }
            | Message::Load {
                direction: Direction::Down,
                ..
            }
            | Message::All { .. } => Effect::nothing(),
        }
    }
}

/// The group key and the counter after forgetting.
fn next_group(group: u64) -> (u64, u64)
    ensures key { result.0 ≡ (if has_next group then group + 1 else group) }
    ensures counter { result.1 ≡ (if has_next group then 0 else limit) }
{
    if group < COUNTER_LIMIT {
        (group + 1, 0)
    } else {
        (group, COUNTER_LIMIT)
    }
}
