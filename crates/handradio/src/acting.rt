//! What a handheld does of itself, over bytes.
ghost use Rattle.std.specs.Prelude.{◌≡◌, length, replicate, Ok};
ghost use Rattle.link.specs.Keys.{answer_of};
ghost use Rattle.link.specs.Hands.{no_gate_keys, hand_by_act, hand_acts_bytes};
ghost use Rattle.link.specs.Answers.{answered};
ghost use Rattle.handradio.specs.State.{held_in, ring_of};

use crate::held::HandLink;
use handset::Hand;
use link::SealedEffect;
use protocol::HandAct;
use sealing::Vault;

impl HandLink {
    /// What a handheld does of itself: it sends a body, or forgets.
    #[tactic(auto, unfolding(link::specs::Hands::hand_acts_bytes))]
    pub fn act<V: Vault>(&mut self, vault: &V, act: HandAct) -> SealedEffect
        ensures { answered (Ok result) (held_in self.new) (ring_of self.new) ≡ answer_of (V.holds vault.now).hash (hand_acts_bytes act (held_in self.old) (ring_of self.old)) }
    {
        match act {
            HandAct::SendUp { .. } => self.do_act(vault, act),
            HandAct::ForgetHand => self.forget(vault),
        }
    }

    /// What the rules say of an act, sealed with the keys that are held.
    fn do_act<V: Vault>(&mut self, vault: &V, act: HandAct) -> SealedEffect
        ensures { answered (Ok result) (held_in self.new) (ring_of self.new) ≡ answer_of (V.holds vault.now).hash (hand_by_act act (held_in self.old) (ring_of self.old)) }
    {
        let gates = self.end.many;
        let effect = self.end.do_act(gates, act);
        self.sealed(vault, effect)
    }

    /// The keys are overwritten first.
    fn forget<V: Vault>(&mut self, vault: &V) -> SealedEffect
        ensures { answered (Ok result) (held_in self.new) (ring_of self.new) ≡ answer_of (V.holds vault.now).hash (hand_by_act HandAct.ForgetHand (held_in self.old) (replicate (length (ring_of self.old)) no_gate_keys)) }
    {
        self.wipe();
        self.do_act(vault, HandAct::ForgetHand)
    }
}
