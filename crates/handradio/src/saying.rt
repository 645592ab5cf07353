//! What a handheld says, sealed with the keys that it holds.
ghost use Rattle.std.specs.Prelude.{◌≡◌, map};
ghost use Rattle.sealing.specs.Seal.{octets_sealed};
ghost use Rattle.endpoint.specs.Effects.{listed};
ghost use Rattle.link.specs.Answers.{texts};
ghost use Rattle.link.specs.Hands.{hand_seals, sealed_by};
ghost use Rattle.handradio.specs.State.{ring_of};

use crate::held::HandLink;
use endpoint::Effect;
use frame::Message;
use link::{PairKeys, SealedEffect};
use octets::Octets;
use sealing::{Vault, seal};

impl HandLink {
    /// The keys that a message is sealed with: a reply with those of the pair offered, all else with those in use.
    fn keys_of(&self, message: &Message) -> PairKeys
        ensures { sealed_by result message.now ≡ hand_seals (ring_of self.now) message.now }
    {
        match message {
            Message::Reply { pair } => self.gate(pair.gate).keys.offered,
            Message::Taken { pair } | Message::Load { pair, .. } => {
                self.gate(pair.gate).keys.installed
            }
            Message::Begin { .. }
            | Message::Take { .. }
            | Message::Renew { .. }
            | Message::All { .. } => PairKeys::NONE,
        }
    }

    /// A message in bytes.
    fn say<V: Vault>(&self, vault: &V, message: &Message) -> Octets
        ensures { result ≡ octets_sealed (V.holds vault.now).hash (hand_seals (ring_of self.now) message.now) }
    {
        seal(vault, message, &self.keys_of(message), &[0; 32])
    }

    /// What comes of a rule, with what is said in bytes.
    pub(crate) fn sealed<V: Vault>(&self, vault: &V, effect: Effect) -> SealedEffect
        ensures says { texts result.says ≡ map (octets_sealed (V.holds vault.now).hash) (map (hand_seals (ring_of self.now)) (listed effect.says)) }
        ensures delivers { result.delivers ≡ effect.delivers }
    {
        SealedEffect {
            says: effect.says.map(|message| self.say(vault, &message)),
            delivers: effect.delivers,
        }
    }
}
