//! The keys that a handheld holds: looked up, and kept.
ghost use Rattle.std.specs.Prelude.{◌≡◌, ◌==◌, ◌&&◌, if◌then◌else◌, length, nat_lt, replicate, slice_set};
ghost use Rattle.protocol.specs.Held.{new_hand};
ghost use Rattle.protocol.specs.Rules.{gate_peer};
ghost use Rattle.link.specs.declared.keys.TagKey.TheVariants.{Key, Missing};
ghost use Rattle.link.specs.Keys.{held_key as held_key_of};
ghost use Rattle.link.specs.Hands.{no_gate_keys, gate_keys, hand_tag_key, learns_key, took_keys, renewed_keys, hand_keys_after};
ghost use Rattle.handradio.specs.State.{held_in, ring_of};

use crate::held::{Gate, HandLink};
use endpoint::is_this;
use frame::{Message, Pair};
use handset::Handset;
use link::{GateKeys, PairKeys, TagKey, held_key};
use octets::Nonces;

impl HandLink {
    /// Nothing is held yet, for so many gates.
    pub fn new(gates: u8) -> HandLink
        ensures held { held_in result ≡ new_hand gates }
        ensures keys { ring_of result ≡ replicate gates no_gate_keys }
    {
        HandLink {
            end: Handset::new(gates),
            keys: [GateKeys::NONE; 255],
        }
    }

    /// What is held for a gate; nothing for one that is not there.
    pub(crate) fn gate(&self, gate: u64) -> Gate
        ensures peer { result.peer ≡ gate_peer gate (held_in self.now) }
        ensures keys { result.keys ≡ gate_keys gate (ring_of self.now) }
    {
        if gate >= self.end.many as u64 {
            return Gate::NONE;
        }
        let peer = self.end.peers[gate as usize];
        let keys = self.keys[gate as usize];
        Gate { peer, keys }
    }

    /// Keys put down for a gate, if it is there.
    #[tactic(auto, using(link::proofs::Tables::put))]
    pub(crate) fn put_keys(&mut self, gate: u64, keys: GateKeys)
        ensures keys { ring_of self.new ≡ slice_set (ring_of self.old) gate keys }
        ensures same { self.new.end ≡ self.old.end }
    {
        if gate < self.end.many as u64 {
            self.keys[gate as usize] = keys;
        }
    }

    /// All keys are overwritten with noughts.
    pub(crate) fn wipe(&mut self)
        ensures keys { ring_of self.new ≡ replicate (length (ring_of self.old)) no_gate_keys }
        ensures same { self.new.end ≡ self.old.end }
    {
        self.keys = [GateKeys::NONE; 255];
    }

    /// The key of a message's tag, if this handheld has it.
    pub(crate) fn tag_key(&self, message: &Message, nonces: &Nonces) -> TagKey
        ensures { result ≡ hand_tag_key (held_in self.now) (ring_of self.now) nonces.now.anonce nonces.now.snonce message.now }
    {
        match message {
            Message::Begin { .. } | Message::Reply { .. } | Message::Taken { .. } =>
                TagKey::Missing,
            Message::Take { pair, .. } | Message::Renew { pair, .. } | Message::Load { pair, .. } =>
                self.gate(pair.gate).pair_key(pair, nonces),
            Message::All { gate, group, .. } => self.gate(*gate).group_key(*group),
        }
    }

    /// What a message behind a right tag leaves of the keys; `group` is the group key that it carries. The rules have
    /// not heard it yet.
    pub(crate) fn keep(&mut self, message: &Message, group: [u8; 32])
        ensures keys { ring_of self.new ≡ hand_keys_after group message.now (held_in self.old) (ring_of self.old) }
        ensures same { self.new.end ≡ self.old.end }
    {
        match *message {
            Message::Take {
                group: number,
                pair,
                ..
            } => {
                let keys = self.gate(pair.gate).took(number, group, &pair);
                self.put_keys(pair.gate, keys);
            }
            Message::Renew {
                round,
                group: number,
                pair,
                ..
            } => {
                let keys = self.gate(pair.gate).renewed(round, number, group, &pair);
                self.put_keys(pair.gate, keys);
            }
            _ => {}
        }
    }
}

impl Gate {
    /// The key of a pair that is offered or in use.
    fn pair_key(&self, pair: &Pair, nonces: &Nonces) -> TagKey
        ensures { result ≡ held_key_of pair.now nonces.now.anonce nonces.now.snonce self.now.peer.end self.now.keys.offered self.now.keys.installed }
    {
        held_key(
            pair,
            nonces,
            &self.peer.end,
            &self.keys.offered,
            &self.keys.installed,
        )
    }

    /// The group key with a number, if it is the one held.
    fn group_key(&self, number: u64) -> TagKey
        ensures { result ≡ (if nat_lt 0 number && number == self.now.peer.group then Key self.now.keys.group else Missing) }
    {
        if number > 0 && number == self.peer.group {
            TagKey::Key(self.keys.group)
        } else {
            TagKey::Missing
        }
    }

    /// A group key with a higher number is had from now on; one told again keeps its bytes.
    fn learns(&self, number: u64, group: [u8; 32]) -> GateKeys
        ensures { result ≡ learns_key number group self.now.peer self.now.keys }
    {
        if self.peer.group < number {
            GateKeys { group, ..self.keys }
        } else {
            self.keys
        }
    }

    /// A take for the pair offered: its keys are those in use, and nothing is offered.
    fn took(&self, number: u64, group: [u8; 32], pair: &Pair) -> GateKeys
        ensures { result ≡ took_keys number group pair.now self.now.peer self.now.keys }
    {
        if !is_this(pair, &self.peer.end.offered) {
            return self.keys;
        }
        GateKeys {
            offered: PairKeys::NONE,
            installed: self.keys.offered,
            ..self.learns(number, group)
        }
    }

    /// A renew under the pair in use, of a round above its own.
    fn renewed(&self, round: u64, number: u64, group: [u8; 32], pair: &Pair) -> GateKeys
        ensures { result ≡ renewed_keys round number group pair.now self.now.peer self.now.keys }
    {
        if is_this(pair, &self.peer.end.key) && self.peer.end.round < round {
            self.learns(number, group)
        } else {
            self.keys
        }
    }
}
