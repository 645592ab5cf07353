//! The calls of a handheld, over its rules: a row is checked, and heard.
ghost use Rattle.std.specs.Prelude.{◌≡◌, ◌==◌, ◌&&◌, nat_lt};
ghost use Rattle.protocol.specs.Rules.{quiet, hand_forgets};
ghost use Rattle.protocol.specs.Calls.{is_for_hand};
ghost use Rattle.handset.specs.State.{state_of};

use crate::hand::Hand;
use crate::handset::Handset;
use endpoint::{Addressee, Effect, check};
use frame::{Direction, Message, Refusal};
use protocol::HandAct;

/// Handheld `s`, where there are so many gates.
#[derive(Clone, Copy)]
struct Listener {
    gates: u8,
    s: u16,
}

impl Listener {
    fn is_named(&self, gate: u64, hand: u64) -> bool
        ensures { result ≡ (nat_lt gate self.now.gates && hand == self.now.s) }
    {
        gate < self.gates as u64 && hand == self.s as u64
    }
}

impl Addressee for Listener {
    ghost addressed = { λ l m. is_for_hand l.gates l.s m };

    fn is_for(&self, message: &Message) -> bool {
        match message {
            Message::Begin { gate, hand, .. } => self.is_named(*gate, *hand),
            Message::All { gate, .. } => *gate < self.gates as u64,
            Message::Take { pair, .. }
            | Message::Renew { pair, .. }
            | Message::Load {
                direction: Direction::Down,
                pair,
                ..
            } => self.is_named(pair.gate, pair.hand),
            Message::Reply { .. }
            | Message::Taken { .. }
            | Message::Load {
                direction: Direction::Up,
                ..
            } => false,
        }
    }
}

impl Handset {
    /// All is forgotten but how many nonces were drawn.
    fn forget(&mut self)
        ensures { quiet (state_of self.new) ≡ hand_forgets (state_of self.old) }
    {
        let mut fresh = Handset::new(self.many);
        fresh.draws = self.draws;
        *self = fresh;
    }
}

impl Hand for Handset {
    ghost state = { state_of };

    fn fresh(gates: u8) -> Self {
        Handset::new(gates)
    }

    #[tactic(auto, using(crate::proofs::Verdicts::verdict_by))]
    fn judge(&self, g: u8, s: u16, row: &[u64], genuine: bool) -> Result<Message, Refusal> {
        let listener = Listener {
            gates: g.min(self.many),
            s,
        };
        check(&listener, row, genuine)
    }

    #[tactic(auto, unfolding(protocol::specs::Calls::hand_hears_row))]
    fn hear_row(&mut self, g: u8, s: u16, row: &[u64], genuine: bool) -> Result<Effect, Refusal> {
        let message = self.judge(g, s, row, genuine)?;
        Ok(self.hear_message(s as u64, message))
    }

    #[tactic(auto, unfolding(protocol::specs::Calls::hand_does))]
    fn do_act(&mut self, gates: u8, act: HandAct) -> Effect {
        match act {
            HandAct::SendUp { gate, body } if gate < gates as u64 => self.send(gate, body),
            HandAct::SendUp { .. } => Effect::nothing(),
            HandAct::ForgetHand => {
                self.forget();
                Effect::nothing()
            }
        }
    }
}
