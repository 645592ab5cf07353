//! One call of one end, put down.
ghost use Rattle.std.specs.Prelude.{◌≡◌, ◌<◌, true, ◌++◌, vec_len, vec_capacity};
ghost use Rattle.frame.specs.Row.{code};
ghost use Rattle.protocol.specs.Calls.{gate_does, gate_hears_row, hand_does, hand_hears_row};
ghost use Rattle.protocol.specs.World.{gate, hand, logged, put_gate, put_hand};
ghost use Rattle.endpoint.specs.Effects.{listed};
ghost use Rattle.simulator.specs.Model.{HasRoom, Tells, added, entries, world_by, world_of};

use crate::log::{Line, Played};
use crate::network::Network;
use endpoint::Effect;
use frame::{Message, Node};
use gateway::Post;
use handset::Hand;
use protocol::{GateAct, HandAct};

/// Puts down what an end said or took, if anything.
fn note(lines: &mut Vec<Line>, node: Node, message: Option<Message>) -> Option<Line>
    requires { vec_len lines.old < vec_capacity lines.old }
    ensures tells { entries lines.new ≡ added result ++ entries lines.old }
    ensures puts { entries lines.new ≡ logged node (listed message) (entries lines.old) }
{
    let message = message?;
    let line = Line { node, message };
    lines.push_reserved(line);
    Some(line)
}

impl Network {
    /// Puts down what an end says and delivers.
    fn put_down(&mut self, node: Node, effect: Effect) -> Played
        requires { HasRoom self.old }
        ensures world { world_of self.new ≡ world_by self.old.gates.items self.old.hands.items (logged node (listed effect.says) (entries self.old.sent)) (logged node (listed effect.delivers) (entries self.old.delivered)) }
        ensures tells { Tells result (world_of self.old) (world_of self.new) }
    {
        let place = self.sent.len() as u64;
        let sent = note(&mut self.sent, node, effect.says);
        let delivered = note(&mut self.delivered, node, effect.delivers);
        Played {
            place,
            sent,
            delivered,
        }
    }

    /// Gate `g` hears a message; of a refused one nothing comes.
    #[tactic(auto, using(crate::proofs::OneCall::heard, crate::proofs::OneCall::gate_step))]
    pub(crate) fn gate_hears(&mut self, g: usize, message: &Message) -> Played
        requires there { g < vec_len self.old.gates }
        requires room { HasRoom self.old }
        ensures world { world_of self.new ≡ put_gate g (gate_hears_row g (vec_len self.old.hands) (code message.now) true (gate g (world_of self.old))) (world_of self.old) }
        ensures tells { Tells result (world_of self.old) (world_of self.new) }
    {
        let hands = self.hands.len() as u16;
        let row = message.row();
        let answer = self.gates[g].hear_row(g as u8, hands, row.as_slice(), true);
        self.put_down(Node::Gate(g as u64), answer.unwrap_or(Effect::nothing()))
    }

    /// Handheld `h` hears a message.
    #[tactic(auto, using(crate::proofs::OneCall::heard, crate::proofs::OneCall::hand_step))]
    pub(crate) fn hand_hears(&mut self, h: usize, message: &Message) -> Played
        requires there { h < vec_len self.old.hands }
        requires room { HasRoom self.old }
        ensures world { world_of self.new ≡ put_hand h (hand_hears_row (vec_len self.old.gates) h (code message.now) true (hand h (world_of self.old))) (world_of self.old) }
        ensures tells { Tells result (world_of self.old) (world_of self.new) }
    {
        let gates = self.gates.len() as u8;
        let row = message.row();
        let answer = self.hands[h].hear_row(gates, h as u16, row.as_slice(), true);
        self.put_down(Node::Hand(h as u64), answer.unwrap_or(Effect::nothing()))
    }

    /// Gate `g` does something of itself.
    #[tactic(auto, using(crate::proofs::OneCall::gate_step))]
    pub(crate) fn gate_acts(&mut self, g: usize, act: GateAct) -> Played
        requires there { g < vec_len self.old.gates }
        requires room { HasRoom self.old }
        ensures world { world_of self.new ≡ put_gate g (gate_does g (vec_len self.old.hands) act (gate g (world_of self.old))) (world_of self.old) }
        ensures tells { Tells result (world_of self.old) (world_of self.new) }
    {
        let hands = self.hands.len() as u16;
        let effect = self.gates[g].do_act(g as u8, hands, act);
        self.put_down(Node::Gate(g as u64), effect)
    }

    /// Handheld `h` does something of itself.
    #[tactic(auto, using(crate::proofs::OneCall::hand_step))]
    pub(crate) fn hand_acts(&mut self, h: usize, act: HandAct) -> Played
        requires there { h < vec_len self.old.hands }
        requires room { HasRoom self.old }
        ensures world { world_of self.new ≡ put_hand h (hand_does (vec_len self.old.gates) act (hand h (world_of self.old))) (world_of self.old) }
        ensures tells { Tells result (world_of self.old) (world_of self.new) }
    {
        let gates = self.gates.len() as u8;
        let effect = self.hands[h].do_act(gates, act);
        self.put_down(Node::Hand(h as u64), effect)
    }
}
