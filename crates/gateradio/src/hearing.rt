//! A gate hears bytes: they are cut, their row is judged, their tag is checked, and what they carry is opened.
ghost use Rattle.std.specs.Prelude.{◌≡◌, ◌≤◌, true, length};
ghost use Rattle.frame.specs.Row.{code, message_of};
ghost use Rattle.octets.specs.Laws.{row_of};
ghost use Rattle.link.specs.Keys.{answer_of, opened_with};
ghost use Rattle.link.specs.Gates.{gate_by_row, gate_keys_after, gate_tagged, gate_hears_bytes};
ghost use Rattle.link.specs.Answers.{answered};
ghost use Rattle.gateradio.specs.State.{held_in, ring_of};

use crate::held::GateLink;
use frame::{Message, Refusal};
use gateway::Post;
use link::{PairKeys, SealedEffect, TagKey, open_message};
use octets::Cut;
use sealing::{Vault, tag_is_right};

impl GateLink {
    /// Gate `g` hears a row, as the rules have it, and seals what it says.
    fn hear_row<V: Vault>(
        &mut self,
        vault: &V,
        g: u8,
        row: &[u64],
        genuine: bool,
    ) -> Result<SealedEffect, Refusal>
        ensures { answered result (held_in self.new) (ring_of self.new) ≡ answer_of (V.holds vault.now).hash (gate_by_row g (record { row = row.now; genuine = genuine }) (held_in self.old) (ring_of self.old)) }
    {
        let hands = self.end.many;
        let effect = self.end.hear_row(g, hands, row, genuine)?;
        Ok(self.sealed(vault, effect))
    }

    /// A message whose tag is right.
    fn hear_message<V: Vault>(
        &mut self,
        vault: &V,
        g: u8,
        message: Message,
    ) -> Result<SealedEffect, Refusal>
        ensures { answered result (held_in self.new) (ring_of self.new) ≡ answer_of (V.holds vault.now).hash (gate_by_row g (record { row = code message; genuine = true }) (held_in self.old) (ring_of self.old)) }
    {
        self.hear_row(vault, g, message.row().as_slice(), true)
    }

    /// A message behind a right tag: its keys are kept, its body is opened, and then it is heard.
    fn hear_opened<V: Vault>(
        &mut self,
        vault: &V,
        g: u8,
        key: &[u8; 32],
        cut: &Cut,
        message: Message,
    ) -> Result<SealedEffect, Refusal>
        requires { message ≡ message_of (row_of cut.now) }
        ensures { answered result (held_in self.new) (ring_of self.new) ≡ answer_of (V.holds vault.now).hash (gate_by_row g (record { row = code (opened_with (V.holds vault.now).hash key.now cut.now); genuine = true }) (held_in self.old) (gate_keys_after (record { nonces = cut.now.nonces; key = key.now }) (message_of (row_of cut.now)) (held_in self.old) (ring_of self.old))) }
    {
        let pair_keys = PairKeys {
            nonces: cut.nonces,
            key: *key,
        };
        self.keep(&message, pair_keys);
        self.hear_message(vault, g, open_message(vault, key, message, &cut.body))
    }

    /// A message judged by the key that this gate has for its tag.
    fn hear_tagged<V: Vault>(
        &mut self,
        vault: &V,
        g: u8,
        bytes: &[u8],
        cut: &Cut,
        message: Message,
        key: TagKey,
    ) -> Result<SealedEffect, Refusal>
        requires message { message ≡ message_of (row_of cut.now) }
        requires tagged { cut.now.tagged ≤ length bytes.now }
        ensures { answered result (held_in self.new) (ring_of self.new) ≡ answer_of (V.holds vault.now).hash (gate_tagged (V.holds vault.now) g bytes.now cut.now key (held_in self.old) (ring_of self.old)) }
    {
        let row = cut.row.as_slice();
        match key {
            TagKey::Missing => self.hear_row(vault, g, row, true),
            TagKey::Mismatch => self.hear_row(vault, g, row, false),
            TagKey::Key(key) => {
                if tag_is_right(vault, &key, &bytes[..cut.tagged], &cut.tag) {
                    self.hear_opened(vault, g, &key, cut, message)
                } else {
                    self.hear_row(vault, g, row, false)
                }
            }
        }
    }

    /// Gate `g` hears bytes.
    #[tactic(auto, unfolding(link::specs::Gates::gate_hears_bytes))]
    pub fn hear<V: Vault>(
        &mut self,
        vault: &V,
        g: u8,
        bytes: &[u8],
    ) -> Result<SealedEffect, Refusal>
        ensures { answered result (held_in self.new) (ring_of self.new) ≡ answer_of (V.holds vault.now).hash (gate_hears_bytes (V.holds vault.now) g bytes.now (held_in self.old) (ring_of self.old)) }
    {
        let cut = Cut::parse(bytes)?;
        let message = self.end.judge(g, self.end.many, cut.row.as_slice(), true)?;
        let key = self.tag_key(vault, &message, &cut.nonces);
        self.hear_tagged(vault, g, bytes, &cut, message, key)
    }
}
