//! The keys that a gate holds, and keeps.
ghost use Rattle.std.specs.Prelude.{◌≡◌, length, replicate};
ghost use Rattle.protocol.specs.Rules.{answers as answers_of, hand_peer};
ghost use Rattle.link.specs.Gates.{no_hand_keys, hand_keys, with_hand_keys, replied_with, confirmed_with, gate_keys_after};
ghost use Rattle.gateradio.specs.State.{held_in, ring_of};

use crate::held::{GateLink, Handheld};
use endpoint::is_this;
use frame::{Message, Pair};
use link::{HandKeys, PairKeys};

impl GateLink {
    /// What is held for a handheld; nothing for one that is not there.
    pub(crate) fn handheld(&self, hand: u64) -> Handheld
        ensures peer { result.peer ≡ hand_peer hand (held_in self.now) }
        ensures keys { result.keys ≡ hand_keys hand (ring_of self.now) }
    {
        if hand >= self.end.many as u64 {
            return Handheld::NONE;
        }
        let peer = self.end.peers[hand as usize];
        let keys = self.keys[hand as usize];
        Handheld { peer, keys }
    }

    /// Keys put down for a handheld, if it is there.
    #[tactic(auto, using(link::proofs::Tables::put))]
    pub(crate) fn put_keys(&mut self, hand: u64, keys: HandKeys)
        ensures keys { ring_of self.new ≡ with_hand_keys hand keys (ring_of self.old) }
        ensures same { self.new.end ≡ self.old.end }
    {
        if hand < self.end.many as u64 {
            self.keys[hand as usize] = keys;
        }
    }

    /// All keys of handhelds are overwritten with noughts.
    pub(crate) fn wipe(&mut self)
        ensures keys { ring_of self.new ≡ record { group = self.old.group; peers = replicate (length (ring_of self.old).peers) no_hand_keys } }
        ensures same { self.new.end ≡ self.old.end }
    {
        self.keys = [HandKeys::NONE; 512];
    }

    /// What a message behind a right tag leaves of the keys; `pair_keys` has its nonces and the key of its tag. The rules
    /// have not heard it yet.
    pub(crate) fn keep(&mut self, message: &Message, pair_keys: PairKeys)
        ensures keys { ring_of self.new ≡ gate_keys_after pair_keys message.now (held_in self.old) (ring_of self.old) }
        ensures same { self.new.end ≡ self.old.end }
    {
        match *message {
            Message::Reply { pair } => {
                let keys = self.handheld(pair.hand).replied(&pair, pair_keys);
                self.put_keys(pair.hand, keys);
            }
            Message::Taken { pair } => {
                let keys = self.handheld(pair.hand).confirmed(&pair);
                self.put_keys(pair.hand, keys);
            }
            _ => {}
        }
    }
}

impl Handheld {
    /// Whether a pair answers the handshake that is open.
    pub(crate) fn answers(&self, pair: &Pair) -> bool
        ensures { result ≡ answers_of pair.now self.now.peer.handshake }
    {
        self.peer
            .handshake
            .is_some_and(|open| pair.anonce == open.anonce)
    }

    /// A reply to the open handshake: its pair is offered, unless it is in use.
    fn replied(&self, pair: &Pair, offered: PairKeys) -> HandKeys
        ensures { result ≡ replied_with offered pair.now self.now.peer self.now.keys }
    {
        if self.answers(pair) && !is_this(pair, &self.peer.end.key) {
            HandKeys {
                offered,
                ..self.keys
            }
        } else {
            self.keys
        }
    }

    /// A taken for the pair offered: its keys are those in use, nothing is offered, and the handshake's nonce is gone.
    fn confirmed(&self, pair: &Pair) -> HandKeys
        ensures { result ≡ confirmed_with pair.now self.now.peer self.now.keys }
    {
        if is_this(pair, &self.peer.end.offered) {
            HandKeys {
                installed: self.keys.offered,
                ..HandKeys::NONE
            }
        } else {
            self.keys
        }
    }
}
