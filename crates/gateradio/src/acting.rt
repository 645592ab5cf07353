//! What a gate does of itself, over bytes.
ghost use Rattle.std.specs.Prelude.{◌≡◌, ◌<◌, ◌≤◌, true, false, length, replicate, Some, None, Ok};
ghost use Rattle.protocol.specs.Held.{new_gate};
ghost use Rattle.link.specs.Keys.{can_draw, answer_of};
ghost use Rattle.link.specs.Gates.{new_ring, no_hand_keys, hand_keys, with_hand_keys, invited_keys, gate_nonce, gate_by_act, regrouped, gate_acts_bytes};
ghost use Rattle.link.specs.Answers.{answered};
ghost use Rattle.gateradio.specs.State.{held_in, ring_of};

use crate::held::GateLink;
use frame::Nonce;
use gateway::{Gateway, Post};
use link::{HandKeys, PairKeys, SealedEffect};
use protocol::{COUNTER_LIMIT, GateAct};
use sealing::{Vault, group_key, nonce};

/// The most handhelds that a gate holds something for.
const HANDS: u16 = 512;

impl GateLink {
    /// Nothing is held yet but the first group key, for so many handhelds; none where they are too many.
    pub fn new<V: Vault>(vault: &V, hands: u16) -> Option<GateLink>
        ensures { elim result [ Some l ↦ (hands ≤ 512) × (held_in l ≡ new_gate hands) × (ring_of l ≡ new_ring (V.holds vault.now) hands) | None ↦ 512 < hands ] }
    {
        if hands > HANDS {
            return None;
        }
        Some(GateLink {
            end: Gateway::new(hands),
            group: group_key(vault, 1),
            keys: [HandKeys::NONE; 512],
        })
    }

    /// The next nonce in bytes, while there is one, and entropy for it.
    fn draw<V: Vault>(&self, vault: &V, g: u8) -> Option<[u8; 32]>
        ensures { elim result [ Some a ↦ (can_draw (V.holds vault.now) self.now.end.draws ≡ true) × (a ≡ gate_nonce (V.holds vault.now) g (held_in self.now)) | None ↦ can_draw (V.holds vault.now) self.now.end.draws ≡ false ] }
    {
        let index = self.end.draws;
        if index >= COUNTER_LIMIT {
            return None;
        }
        let anonce = Nonce {
            kind: 0,
            node: g as u64,
            index,
        };
        nonce(vault, anonce)
    }

    /// A handshake is opened: its nonce is held, and nothing is offered.
    fn open(&mut self, hand: u64, anonce: [u8; 32])
        ensures keys { ring_of self.new ≡ with_hand_keys hand (invited_keys anonce (hand_keys hand (ring_of self.old))) (ring_of self.old) }
        ensures same { self.new.end ≡ self.old.end }
    {
        let keys = self.handheld(hand).keys;
        let invited = HandKeys {
            offered: PairKeys::NONE,
            anonce,
            ..keys
        };
        self.put_keys(hand, invited);
    }

    /// What the rules say of an act, sealed with the keys that are held.
    fn do_act<V: Vault>(&mut self, vault: &V, g: u8, act: GateAct) -> SealedEffect
        ensures { answered (Ok result) (held_in self.new) (ring_of self.new) ≡ answer_of (V.holds vault.now).hash (gate_by_act g act (held_in self.old) (ring_of self.old)) }
    {
        let hands = self.end.many;
        let effect = self.end.do_act(g, hands, act);
        self.sealed(vault, effect)
    }

    /// The same for an act that changes the group key: its bytes are worked out anew.
    fn do_regrouping_act<V: Vault>(&mut self, vault: &V, g: u8, act: GateAct) -> SealedEffect
        ensures { answered (Ok result) (held_in self.new) (ring_of self.new) ≡ answer_of (V.holds vault.now).hash (gate_by_act g act (held_in self.old) (regrouped (V.holds vault.now) g act (held_in self.old) (ring_of self.old).peers)) }
    {
        let hands = self.end.many;
        let effect = self.end.do_act(g, hands, act);
        self.group = group_key(vault, self.end.group);
        self.sealed(vault, effect)
    }

    #[tactic(auto, unfolding(link::specs::Gates::gate_acts_bytes))]
    fn invite<V: Vault>(&mut self, vault: &V, g: u8, hand: u64) -> SealedEffect
        ensures { answered (Ok result) (held_in self.new) (ring_of self.new) ≡ answer_of (V.holds vault.now).hash (gate_acts_bytes (V.holds vault.now) g (GateAct.Invite hand) (held_in self.old) (ring_of self.old)) }
    {
        let Some(anonce) = self.draw(vault, g) else {
            return SealedEffect::nothing();
        };
        self.open(hand, anonce);
        self.do_act(vault, g, GateAct::Invite { hand })
    }

    /// Keys of handhelds are overwritten first.
    fn forget<V: Vault>(&mut self, vault: &V, g: u8) -> SealedEffect
        ensures { answered (Ok result) (held_in self.new) (ring_of self.new) ≡ answer_of (V.holds vault.now).hash (gate_by_act g GateAct.ForgetGate (held_in self.old) (regrouped (V.holds vault.now) g GateAct.ForgetGate (held_in self.old) (replicate (length (ring_of self.old).peers) no_hand_keys))) }
    {
        self.wipe();
        self.do_regrouping_act(vault, g, GateAct::ForgetGate)
    }

    /// What gate `g` does of itself.
    #[tactic(auto, unfolding(link::specs::Gates::gate_acts_bytes))]
    pub fn act<V: Vault>(&mut self, vault: &V, g: u8, act: GateAct) -> SealedEffect
        ensures { answered (Ok result) (held_in self.new) (ring_of self.new) ≡ answer_of (V.holds vault.now).hash (gate_acts_bytes (V.holds vault.now) g act (held_in self.old) (ring_of self.old)) }
    {
        match act {
            GateAct::Invite { hand } => self.invite(vault, g, hand),
            GateAct::Rotate => self.do_regrouping_act(vault, g, act),
            GateAct::ForgetGate => self.forget(vault, g),
            GateAct::SendDown { .. } | GateAct::Broadcast { .. } | GateAct::Rekey { .. } => {
                self.do_act(vault, g, act)
            }
        }
    }
}
