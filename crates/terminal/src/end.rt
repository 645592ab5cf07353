//! What a terminal asks of an end over bytes.
ghost use Rattle.std.specs.Prelude.{◌≡◌, ℕ, List, Ok, Option};
ghost use Rattle.frame.specs.declared.message.Message.{Message};
ghost use Rattle.protocol.specs.declared.acts.NumberedAct.{NumberedAct};
ghost use Rattle.sealing.specs.Secrets.{Secrets};
ghost use Rattle.link.specs.Keys.{Answer};
ghost use Rattle.link.specs.Answers.{answered};
ghost use Rattle.console.specs.declared.delivery.Delivery.{Delivery};

use console::Delivery;
use frame::{Message, Refusal};
use link::SealedEffect;
use protocol::NumberedAct;
use sealing::Vault;

/// An end over bytes.
pub trait End {
    /// Its number among the ends of its kind.
    type Index: Copy;

    // What the rules hold, and the keys beside it.
    ghost Held: { Type 0 };

    ghost Ring: { Type 0 };

    ghost held: { Self → Held };

    ghost ring: { Self → Ring };

    ghost hears: { Secrets → Self.Index → List ℕ → Held → Ring → Answer Held Ring };

    ghost acts: { Secrets → Self.Index → NumberedAct → Held → Ring → Answer Held Ring };

    ghost delivered: { Message → Option Delivery };

    /// It hears bytes.
    fn hear_bytes<V: Vault>(
        &mut self,
        vault: &V,
        index: Self::Index,
        bytes: &[u8],
    ) -> Result<SealedEffect, Refusal>
        ensures { answered result (held self.new) (ring self.new) ≡ hears (V.holds vault.now) index bytes.now (held self.old) (ring self.old) };

    /// It does something of itself.
    fn act_by_number<V: Vault>(
        &mut self,
        vault: &V,
        index: Self::Index,
        act: NumberedAct,
    ) -> SealedEffect
        ensures { answered (Ok result) (held self.new) (ring self.new) ≡ acts (V.holds vault.now) index act (held self.old) (ring self.old) };

    /// What it hands on of a message that is delivered to it.
    fn delivery(message: &Message) -> Option<Delivery>
        ensures { result ≡ delivered message.now };
}
