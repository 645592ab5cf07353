//! What a command does: one event of the world, or none.
ghost use Rattle.std.specs.Prelude.{◌≡◌, ◌<◌, ◌≤◌, length, MatchOption, true, Some};
ghost use Rattle.protocol.specs.Calls.{gate_may, hand_may};
ghost use Rattle.protocol.specs.World.{GateActs, HandActs, Hears, may_be_heard};
ghost use Rattle.simulator.specs.Model.{HasRoom, world_of};
ghost use Rattle.simulator.specs.Play.{Goes, event_of, is_from_here, sent_at};

use crate::log::Played;
use crate::messages::hearer;
use crate::network::Network;
use frame::{Message, Node};
use protocol::{GateAct, HandAct};
use script::Command;

/// Whether the handheld that an act is towards is there.
fn gate_may(hands: usize, act: GateAct) -> bool
    ensures { result ≡ gate_may hands act }
{
    match act {
        GateAct::Invite { hand } | GateAct::SendDown { hand, .. } | GateAct::Rekey { hand } => {
            hand < hands as u64
        }
        GateAct::Broadcast { .. } | GateAct::Rotate | GateAct::ForgetGate => true,
    }
}

/// Whether the gate that an act is towards is there.
fn hand_may(gates: usize, act: HandAct) -> bool
    ensures { result ≡ hand_may gates act }
{
    match act {
        HandAct::SendUp { gate, .. } => gate < gates as u64,
        HandAct::ForgetHand => true,
    }
}

impl Network {
    fn gate_does(&mut self, gate: u64, act: GateAct) -> Option<Played>
        requires { HasRoom self.old }
        ensures { Goes result (Some (GateActs gate act)) (world_of self.old) (world_of self.new) }
    {
        if gate < self.gates.len() as u64 && gate_may(self.hands.len(), act) {
            Some(self.gate_acts(gate as usize, act))
        } else {
            None
        }
    }

    fn hand_does(&mut self, hand: u64, act: HandAct) -> Option<Played>
        requires { HasRoom self.old }
        ensures { Goes result (Some (HandActs hand act)) (world_of self.old) (world_of self.new) }
    {
        if hand < self.hands.len() as u64 && hand_may(self.gates.len(), act) {
            Some(self.hand_acts(hand as usize, act))
        } else {
            None
        }
    }

    /// Whether the gate that an invented begin names is there.
    fn is_from_here(&self, message: &Message) -> bool
        ensures { result ≡ is_from_here message.now (world_of self.now) }
    {
        match message {
            Message::Begin { gate, .. } => *gate < self.gates.len() as u64,
            Message::Reply { .. }
            | Message::Take { .. }
            | Message::Taken { .. }
            | Message::Renew { .. }
            | Message::Load { .. }
            | Message::All { .. } => true,
        }
    }

    /// The end that the message names hears it; of a frame to all, this handheld.
    #[tactic(auto, using(crate::proofs::Happens::gate_hears_lem, crate::proofs::Happens::hand_hears_lem, crate::proofs::Happens::no_gate_hears, crate::proofs::Happens::no_hand_hears))]
    fn hears(&mut self, hand: u64, message: &Message) -> Option<Played>
        requires may { may_be_heard message.now (world_of self.old).transcript ≡ true }
        requires room { HasRoom self.old }
        ensures { Goes result (Some (Hears hand message.now)) (world_of self.old) (world_of self.new) }
    {
        if !self.is_from_here(message) {
            return None;
        }
        match hearer(hand, message) {
            Node::Gate(gate) if gate < self.gates.len() as u64 => {
                Some(self.gate_hears(gate as usize, message))
            }
            Node::Hand(hand) if hand < self.hands.len() as u64 => {
                Some(self.hand_hears(hand as usize, message))
            }
            Node::Gate(_) | Node::Hand(_) => None,
        }
    }

    /// The message sent as the `place`-th, if there is one.
    #[tactic(auto, using(crate::proofs::Happens::nth_sent, crate::proofs::OneCall::entries_length))]
    pub(crate) fn message(&self, place: u64) -> Option<Message>
        ensures { MatchOption result (length (world_of self.now).transcript ≤ place)
            (λ m. (place < length (world_of self.now).transcript) × (m ≡ sent_at place (world_of self.now))) }
    {
        self.sent.get(place as usize).map(|line| line.message)
    }

    /// The message sent as the `place`-th is heard, if there is one.
    #[tactic(auto, using(crate::proofs::Happens::may_again, crate::proofs::OneCall::entries_length))]
    fn hears_again(&mut self, hand: u64, place: u64) -> Option<Played>
        requires { HasRoom self.old }
        ensures { Goes result (event_of (Command.Hear hand place) (world_of self.old)) (world_of self.old) (world_of self.new) }
    {
        let Some(message) = self.message(place) else {
            return Some(Played {
                place: self.sent.len() as u64,
                sent: None,
                delivered: None,
            });
        };
        self.hears(hand, &message)
    }

    /// Plays a command, where there is room for what it says and delivers. None where it names an end that is not there.
    pub(crate) fn step(&mut self, command: Command) -> Option<Played>
        requires { HasRoom self.old }
        ensures { Goes result (event_of command (world_of self.old)) (world_of self.old) (world_of self.new) }
    {
        match command {
            Command::Invite { gate, hand } => self.gate_does(gate, GateAct::Invite { hand }),
            Command::Send { gate, hand, body } => {
                self.gate_does(gate, GateAct::SendDown { hand, body })
            }
            Command::Broadcast { gate, body } => self.gate_does(gate, GateAct::Broadcast { body }),
            Command::Rotate { gate } => self.gate_does(gate, GateAct::Rotate),
            Command::Rekey { gate, hand } => self.gate_does(gate, GateAct::Rekey { hand }),
            Command::ForgetGate { gate } => self.gate_does(gate, GateAct::ForgetGate),
            Command::SendUp { hand, gate, body } => {
                self.hand_does(hand, HandAct::SendUp { gate, body })
            }
            Command::ForgetHand { hand } => self.hand_does(hand, HandAct::ForgetHand),
            Command::Hear { hand, place } => self.hears_again(hand, place),
            Command::Begin { gate, hand, anonce } => {
                self.hears(0, &Message::Begin { gate, hand, anonce })
            }
        }
    }
}
