//! A line of the program `gate`.
ghost use Rattle.std.specs.Prelude.{◌≡◌, ◌<◌, ◌≤◌, Some, None};
ghost use Rattle.protocol.specs.Held.{GateState, new_gate};
ghost use Rattle.link.specs.Gates.{GateRing, new_ring};
ghost use Rattle.gateradio.specs.State.{held_in, ring_of};
ghost use Rattle.console.specs.Deliveries.{delivered_at_gate};
ghost use Rattle.terminal.specs.Lines.{gate_acts, gate_hears};

use crate::end::End;
use crate::terminal::Terminal;
use console::Delivery;
use frame::{Message, Refusal};
use gateradio::GateLink;
use link::SealedEffect;
use protocol::{GateAct, NumberedAct};
use sealing::Vault;

/// A gate that is told what to do line by line.
pub type GateTerminal<V> = Terminal<GateLink, V>;

impl End for GateLink {
    type Index = u8;

    ghost Held = { GateState };

    ghost Ring = { GateRing };

    ghost held = { held_in };

    ghost ring = { ring_of };

    ghost hears = { gate_hears };

    ghost acts = { gate_acts };

    ghost delivered = { delivered_at_gate };

    fn hear_bytes<V: Vault>(
        &mut self,
        vault: &V,
        index: u8,
        bytes: &[u8],
    ) -> Result<SealedEffect, Refusal> {
        self.hear(vault, index, bytes)
    }

    fn act_by_number<V: Vault>(&mut self, vault: &V, index: u8, act: NumberedAct) -> SealedEffect {
        self.act(vault, index, GateAct::from(act))
    }

    fn delivery(message: &Message) -> Option<Delivery> {
        Delivery::at_gate(message)
    }
}

impl<V: Vault> Terminal<GateLink, V> {
    /// Nothing is held yet but the first group key, for so many handhelds; none where they are too many.
    pub fn new(vault: V, index: u8, hands: u16) -> Option<GateTerminal<V>>
    where
        V: Drop,
        ensures { elim result [ Some t ↦ (hands ≤ 512) × (held_in t.link ≡ new_gate hands) × (ring_of t.link ≡ new_ring (V.holds vault) hands) × (t.vault ≡ vault) × (t.index ≡ index) | None ↦ 512 < hands ] }
    {
        let link = GateLink::new(&vault, hands)?;
        Some(Terminal { vault, index, link })
    }
}
