//! The key of a message's tag, as far as a gate has it.
ghost use Rattle.std.specs.Prelude.{◌≡◌, ◌<◌};
ghost use Rattle.protocol.specs.Rules.{hand_peer};
ghost use Rattle.link.specs.Gates.{hand_keys, reply_key, or_reply_key, gate_held_key, gate_tag_key};
ghost use Rattle.gateradio.specs.State.{held_in, ring_of};

use crate::held::{GateLink, Handheld};
use frame::{Message, Pair};
use link::{TagKey, held_key};
use octets::Nonces;
use sealing::{Vault, pair_key, same_bytes};

impl Handheld {
    /// The key of a pair that is offered or in use.
    fn pair_key(&self, pair: &Pair, nonces: &Nonces) -> TagKey
        ensures { result ≡ gate_held_key pair.now nonces.now.anonce nonces.now.snonce self.now.peer self.now.keys }
    {
        held_key(
            pair,
            nonces,
            &self.peer.end,
            &self.keys.offered,
            &self.keys.installed,
        )
    }

    /// The key of a reply to the open handshake: of the handshake's own nonce, to the last byte, and of whichever nonce
    /// the handheld drew.
    fn answer_key<V: Vault>(&self, vault: &V, pair: &Pair, nonces: &Nonces) -> TagKey
        requires { pair.now.hand < 65536 }
        ensures { result ≡ reply_key (V.holds vault.now) pair.now nonces.now.anonce nonces.now.snonce self.now.peer self.now.keys }
    {
        if !self.answers(pair) {
            return TagKey::Missing;
        }
        if same_bytes(&nonces.anonce, &self.keys.anonce) {
            TagKey::Key(pair_key(vault, pair.hand as u16, nonces))
        } else {
            TagKey::Mismatch
        }
    }

    /// The key of a reply's tag: that of a pair offered or in use, or else of one that answers the open handshake.
    fn reply_key<V: Vault>(&self, vault: &V, pair: &Pair, nonces: &Nonces) -> TagKey
        requires { pair.now.hand < 65536 }
        ensures { result ≡ or_reply_key (V.holds vault.now) pair.now nonces.now.anonce nonces.now.snonce self.now.peer self.now.keys (gate_held_key pair.now nonces.now.anonce nonces.now.snonce self.now.peer self.now.keys) }
    {
        match self.pair_key(pair, nonces) {
            TagKey::Missing => self.answer_key(vault, pair, nonces),
            held => held,
        }
    }
}

impl GateLink {
    /// The key of a message's tag, if this gate has it.
    pub(crate) fn tag_key<V: Vault>(&self, vault: &V, message: &Message, nonces: &Nonces) -> TagKey
        ensures { result ≡ gate_tag_key (V.holds vault.now) (held_in self.now) (ring_of self.now) nonces.now.anonce nonces.now.snonce message.now }
    {
        match message {
            Message::Reply { pair } if pair.hand < self.end.many as u64 => {
                self.handheld(pair.hand).reply_key(vault, pair, nonces)
            }
            Message::Taken { pair } | Message::Load { pair, .. } => {
                self.handheld(pair.hand).pair_key(pair, nonces)
            }
            Message::Begin { .. }
            | Message::Reply { .. }
            | Message::Take { .. }
            | Message::Renew { .. }
            | Message::All { .. } => TagKey::Missing,
        }
    }
}
