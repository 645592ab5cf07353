//! The rules of a handheld: one peer is lent to its rule at a time.
ghost use Rattle.std.specs.Prelude.{◌≡◌, true};
ghost use Rattle.std.specs.Fn.{FnOnceReturnsAtMut};
ghost use Rattle.frame.specs.Row.{code, is_small};
ghost use Rattle.protocol.specs.Held.{new_hand};
ghost use Rattle.protocol.specs.Rules.{hand_at, hand_begins, hand_hears, hand_send};
ghost use Rattle.endpoint.specs.Effects.{out_of};
ghost use Rattle.endpoint.specs.Steps.{Keeps};
ghost use Rattle.handset.specs.Peers.{is_bounded_peer, StepsAt};
ghost use Rattle.handset.specs.State.{state_of};

use crate::handset::Handset;
use crate::peer::{hear_all, hear_begin, hear_renew, hear_take};
use endpoint::{Effect, hear_load, send_load};
use frame::{Direction, Message, Nonce, Pair};
use protocol::{COUNTER_LIMIT, GatePeer};

impl Handset {
    pub fn new(gates: u8) -> Handset
        ensures { state_of result ≡ new_hand gates }
    {
        Handset {
            draws: 0,
            many: gates,
            peers: [GatePeer::NEW; 255],
        }
    }

    /// What happens at one gate, if there is such a gate; so many nonces are drawn then.
    fn at<F: FnOnce(&mut GatePeer) -> Effect>(&mut self, draws: u64, gate: u64, step: F) -> Effect
        requires callable { (x : _) → is_bounded_peer x.now ≡ true → F.pre step x }
        requires bounded { Keeps is_bounded_peer (FnOnceReturnsAtMut F.FnOnce step) }
        ensures { StepsAt (FnOnceReturnsAtMut F.FnOnce step) draws gate result (state_of self.old) (state_of self.new) }
    {
        if gate >= self.many as u64 {
            return Effect::nothing();
        }
        self.draws = draws;
        step(&mut self.peers[gate as usize])
    }

    /// Draws a nonce, while it may, and offers the pair of both.
    fn begin(&mut self, s: u64, gate: u64, anonce: Nonce) -> Effect
        ensures { out_of result (state_of self.new) ≡ hand_begins s gate anonce (state_of self.old) }
    {
        let index = self.draws;
        if index >= COUNTER_LIMIT {
            return Effect::nothing();
        }
        let snonce = Nonce {
            kind: 1,
            node: s,
            index,
        };
        let pair = Pair {
            gate,
            hand: s,
            anonce,
            snonce,
        };
        self.at(index + 1, gate, |peer| hear_begin(peer, pair))
    }

    /// Sends a body to a gate.
    pub(crate) fn send(&mut self, gate: u64, body: u64) -> Effect
        ensures { out_of result (state_of self.new) ≡ hand_at self.old.draws gate (hand_send body) (state_of self.old) }
    {
        self.at(
            self.draws,
            gate,
            |peer| send_load(&mut peer.end, Direction::Up, body),
        )
    }

    /// Hears a message that is for it, whose numbers are below 2^49.
    pub(crate) fn hear_message(&mut self, s: u64, message: Message) -> Effect
        requires { is_small (code message) ≡ true }
        ensures { out_of result (state_of self.new) ≡ hand_hears s message (state_of self.old) }
    {
        match message {
            Message::Begin { gate, anonce, .. } => self.begin(s, gate, anonce),
            Message::Take {
                group,
                counter,
                pair,
            } => self.at(
                self.draws,
                pair.gate,
                |peer| hear_take(peer, group, counter, pair),
            ),
            Message::Renew {
                round,
                group,
                counter,
                pair,
            } => self.at(
                self.draws,
                pair.gate,
                |peer| hear_renew(peer, round, group, counter, pair),
            ),
            Message::Load {
                direction: Direction::Down,
                counter,
                body,
                pair,
            } => self.at(self.draws, pair.gate, |peer| {
                hear_load(&mut peer.end, Direction::Down, counter, body, pair)
            }),
            Message::All {
                gate,
                group,
                counter,
                body,
            } => self.at(
                self.draws,
                gate,
                |peer| hear_all(peer, gate, group, counter, body),
            ),
            Message::Reply { .. }
            | Message::Taken { .. }
            | Message::Load {
                direction: Direction::Up,
                ..
            } => Effect::nothing(),
        }
    }
}
