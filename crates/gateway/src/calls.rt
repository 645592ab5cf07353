//! The calls of a gate, over its rules: a row is checked, and heard.
ghost use Rattle.std.specs.Prelude.{◌≡◌};
ghost use Rattle.protocol.specs.Calls.{pair_for_gate, is_for_gate};
ghost use Rattle.gateway.specs.State.{state_of};

use crate::gateway::Gateway;
use crate::post::Post;
use endpoint::{Addressee, Effect, check};
use frame::{Direction, Message, Pair, Refusal};
use protocol::GateAct;

/// Gate `g`, where there are so many handhelds.
#[derive(Clone, Copy)]
struct Listener {
    g: u8,
    hands: u16,
}

impl Listener {
    fn is_named(&self, pair: &Pair) -> bool
        ensures { result ≡ pair_for_gate self.now.g self.now.hands pair.now }
    {
        pair.gate == self.g as u64 && pair.hand < self.hands as u64
    }
}

impl Addressee for Listener {
    ghost addressed = { λ l m. is_for_gate l.g l.hands m };

    fn is_for(&self, message: &Message) -> bool {
        match message {
            Message::Reply { pair }
            | Message::Taken { pair }
            | Message::Load {
                direction: Direction::Up,
                pair,
                ..
            } => self.is_named(pair),
            Message::Begin { .. }
            | Message::Take { .. }
            | Message::Renew { .. }
            | Message::All { .. }
            | Message::Load {
                direction: Direction::Down,
                ..
            } => false,
        }
    }
}

impl Post for Gateway {
    ghost state = { state_of };

    fn fresh(stations: u16) -> Self {
        Gateway::new(stations)
    }

    #[tactic(auto, using(crate::proofs::Verdicts::verdict_by))]
    fn judge(&self, g: u8, s: u16, row: &[u64], genuine: bool) -> Result<Message, Refusal> {
        let listener = Listener {
            g,
            hands: s.min(self.many),
        };
        check(&listener, row, genuine)
    }

    #[tactic(auto, unfolding(protocol::specs::Calls::gate_hears_row))]
    fn hear_row(&mut self, g: u8, s: u16, row: &[u64], genuine: bool) -> Result<Effect, Refusal> {
        let message = self.judge(g, s, row, genuine)?;
        Ok(self.hear_message(message))
    }

    #[tactic(auto, unfolding(protocol::specs::Calls::gate_does))]
    fn do_act(&mut self, g: u8, hands: u16, act: GateAct) -> Effect {
        match act {
            GateAct::Invite { hand } if hand < hands as u64 => self.invite(g as u64, hand),
            GateAct::SendDown { hand, body } if hand < hands as u64 => self.send(hand, body),
            GateAct::Rekey { hand } if hand < hands as u64 => self.rekey(hand),
            GateAct::Invite { .. } | GateAct::SendDown { .. } | GateAct::Rekey { .. } => {
                Effect::nothing()
            }
            GateAct::Broadcast { body } => self.broadcast(g as u64, body),
            GateAct::Rotate => {
                self.rotate();
                Effect::nothing()
            }
            GateAct::ForgetGate => {
                self.forget();
                Effect::nothing()
            }
        }
    }
}
