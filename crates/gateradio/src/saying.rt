//! What a gate says, sealed with the keys that it holds.
ghost use Rattle.std.specs.Prelude.{◌≡◌, map};
ghost use Rattle.sealing.specs.Seal.{octets_sealed};
ghost use Rattle.endpoint.specs.Effects.{listed};
ghost use Rattle.link.specs.Answers.{texts};
ghost use Rattle.link.specs.Gates.{gate_seals, sealed_carrying, carried_by};
ghost use Rattle.gateradio.specs.State.{ring_of};

use crate::held::GateLink;
use endpoint::Effect;
use frame::Message;
use link::{PairKeys, SealedEffect};
use octets::{Nonces, Octets};
use sealing::{Vault, seal};

impl GateLink {
    /// The keys that a message is sealed with: a begin has only its nonce, a take those of the pair offered, a frame to
    /// all the group key, all else those in use.
    fn keys_of(&self, message: &Message) -> PairKeys
        ensures { sealed_carrying (carried_by (ring_of self.now) message.now) result message.now ≡ gate_seals (ring_of self.now) message.now }
    {
        match message {
            Message::Begin { hand, .. } => {
                let anonce = self.handheld(*hand).keys.anonce;
                let nonces = Nonces {
                    anonce,
                    ..Nonces::NONE
                };
                PairKeys {
                    nonces,
                    ..PairKeys::NONE
                }
            }
            Message::Take { pair, .. } => self.handheld(pair.hand).keys.offered,
            Message::Renew { pair, .. } | Message::Load { pair, .. } => {
                self.handheld(pair.hand).keys.installed
            }
            Message::All { .. } => {
                let key = self.group;
                PairKeys {
                    key,
                    ..PairKeys::NONE
                }
            }
            Message::Reply { .. } | Message::Taken { .. } => PairKeys::NONE,
        }
    }

    /// The group key, if the message carries it.
    fn carried(&self, message: &Message) -> [u8; 32]
        ensures { result ≡ carried_by (ring_of self.now) message.now }
    {
        match message {
            Message::Take { .. } | Message::Renew { .. } => self.group,
            _ => [0; 32],
        }
    }

    /// A message in bytes.
    fn say<V: Vault>(&self, vault: &V, message: &Message) -> Octets
        ensures { result ≡ octets_sealed (V.holds vault.now).hash (gate_seals (ring_of self.now) message.now) }
    {
        seal(
            vault,
            message,
            &self.keys_of(message),
            &self.carried(message),
        )
    }

    /// What comes of the rules, with what they say in bytes.
    pub(crate) fn sealed<V: Vault>(&self, vault: &V, effect: Effect) -> SealedEffect
        ensures says { texts result.says ≡ map (octets_sealed (V.holds vault.now).hash) (map (gate_seals (ring_of self.now)) (listed effect.says)) }
        ensures delivers { result.delivers ≡ effect.delivers }
    {
        SealedEffect {
            says: effect.says.map(|message| self.say(vault, &message)),
            delivers: effect.delivers,
        }
    }
}
