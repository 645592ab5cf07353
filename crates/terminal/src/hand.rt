//! A line of the program `hand`.
ghost use Rattle.std.specs.Prelude.{◌≡◌, List, replicate};
ghost use Rattle.protocol.specs.Held.{HandState, new_hand};
ghost use Rattle.link.specs.declared.keys.GateKeys.{GateKeys};
ghost use Rattle.link.specs.Hands.{no_gate_keys};
ghost use Rattle.handradio.specs.State.{held_in, ring_of};
ghost use Rattle.console.specs.Deliveries.{delivered_at_hand};
ghost use Rattle.terminal.specs.Lines.{hand_acts, hand_hears};

use crate::end::End;
use crate::terminal::Terminal;
use console::Delivery;
use frame::{Message, Refusal};
use handradio::HandLink;
use link::SealedEffect;
use protocol::{HandAct, NumberedAct};
use sealing::Vault;

/// A handheld that is told what to do line by line.
pub type HandTerminal<V> = Terminal<HandLink, V>;

impl End for HandLink {
    type Index = u16;

    ghost Held = { HandState };

    ghost Ring = { List GateKeys };

    ghost held = { held_in };

    ghost ring = { ring_of };

    ghost hears = { hand_hears };

    ghost acts = { hand_acts };

    ghost delivered = { delivered_at_hand };

    fn hear_bytes<V: Vault>(
        &mut self,
        vault: &V,
        index: u16,
        bytes: &[u8],
    ) -> Result<SealedEffect, Refusal> {
        self.hear(vault, index, bytes)
    }

    fn act_by_number<V: Vault>(
        &mut self,
        vault: &V,
        _index: u16,
        act: NumberedAct,
    ) -> SealedEffect {
        self.act(vault, HandAct::from(act))
    }

    fn delivery(message: &Message) -> Option<Delivery> {
        Delivery::at_hand(message)
    }
}

impl<V> Terminal<HandLink, V> {
    /// Nothing is held yet, for so many gates.
    pub fn new(vault: V, index: u16, gates: u8) -> HandTerminal<V>
        ensures held { held_in result.link ≡ new_hand gates }
        ensures keys { ring_of result.link ≡ replicate gates no_gate_keys }
        ensures vault { result.vault ≡ vault }
        ensures index { result.index ≡ index }
    {
        Terminal {
            vault,
            index,
            link: HandLink::new(gates),
        }
    }
}
