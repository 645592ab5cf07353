//! A handheld hears bytes: they are cut, their row is judged, their tag is checked, and what they carry is opened.
ghost use Rattle.std.specs.Prelude.{◌≡◌, ◌≤◌, true, false, length, Some, None, slice_set};
ghost use Rattle.frame.specs.Row.{code, message_of};
ghost use Rattle.octets.specs.Laws.{row_of};
ghost use Rattle.sealing.specs.Secrets.{pairwise_key};
ghost use Rattle.link.specs.Keys.{can_draw, answer_of, opened_with, group_with};
ghost use Rattle.link.specs.Hands.{gate_keys, with_offered_keys, hand_nonce, hand_by_row, hand_keys_after, hand_tagged, hand_begun, hand_hears_bytes};
ghost use Rattle.link.specs.Answers.{answered};
ghost use Rattle.handradio.specs.State.{held_in, ring_of};

use crate::held::HandLink;
use frame::{Message, Nonce, Refusal};
use handset::Hand;
use link::{GateKeys, PairKeys, SealedEffect, TagKey, open_message};
use octets::{Cut, Nonces};
use protocol::COUNTER_LIMIT;
use sealing::{Vault, nonce, open_key, pair_key, tag_is_right};

impl HandLink {
    /// Handheld `s` hears a row, as the rules have it, and seals what it says.
    fn hear_row<V: Vault>(
        &mut self,
        vault: &V,
        s: u16,
        row: &[u64],
        genuine: bool,
    ) -> Result<SealedEffect, Refusal>
        ensures { answered result (held_in self.new) (ring_of self.new) ≡ answer_of (V.holds vault.now).hash (hand_by_row s (record { row = row.now; genuine = genuine }) (held_in self.old) (ring_of self.old)) }
    {
        let gates = self.end.many;
        let effect = self.end.hear_row(gates, s, row, genuine)?;
        Ok(self.sealed(vault, effect))
    }

    /// A message whose tag is right.
    fn hear_message<V: Vault>(
        &mut self,
        vault: &V,
        s: u16,
        message: Message,
    ) -> Result<SealedEffect, Refusal>
        ensures { answered result (held_in self.new) (ring_of self.new) ≡ answer_of (V.holds vault.now).hash (hand_by_row s (record { row = code message; genuine = true }) (held_in self.old) (ring_of self.old)) }
    {
        self.hear_row(vault, s, message.row().as_slice(), true)
    }

    /// A message behind a right tag: what it carries is opened and kept, and then it is heard.
    fn hear_opened<V: Vault>(
        &mut self,
        vault: &V,
        s: u16,
        key: &[u8; 32],
        cut: &Cut,
        message: Message,
    ) -> Result<SealedEffect, Refusal>
        requires { message ≡ message_of (row_of cut.now) }
        ensures { answered result (held_in self.new) (ring_of self.new) ≡ answer_of (V.holds vault.now).hash (hand_by_row s (record { row = code (opened_with (V.holds vault.now).hash key.now cut.now); genuine = true }) (held_in self.old) (hand_keys_after (group_with (V.holds vault.now).hash key.now cut.now) (message_of (row_of cut.now)) (held_in self.old) (ring_of self.old))) }
    {
        match message {
            Message::Take { .. } | Message::Renew { .. } => {
                let group = open_key(vault, key, &message, &cut.key);
                self.keep(&message, group);
            }
            _ => {}
        }
        self.hear_message(vault, s, open_message(vault, key, message, &cut.body))
    }

    /// A message with a tag, judged by the key that this handheld has for it.
    fn hear_tagged<V: Vault>(
        &mut self,
        vault: &V,
        s: u16,
        bytes: &[u8],
        cut: &Cut,
        message: Message,
        key: TagKey,
    ) -> Result<SealedEffect, Refusal>
        requires message { message ≡ message_of (row_of cut.now) }
        requires tagged { cut.now.tagged ≤ length bytes.now }
        ensures { answered result (held_in self.new) (ring_of self.new) ≡ answer_of (V.holds vault.now).hash (hand_tagged (V.holds vault.now) s bytes.now cut.now key (held_in self.old) (ring_of self.old)) }
    {
        let row = cut.row.as_slice();
        match key {
            TagKey::Missing => self.hear_row(vault, s, row, true),
            TagKey::Mismatch => self.hear_row(vault, s, row, false),
            TagKey::Key(key) => {
                if tag_is_right(vault, &key, &bytes[..cut.tagged], &cut.tag) {
                    self.hear_opened(vault, s, &key, cut, message)
                } else {
                    self.hear_row(vault, s, row, false)
                }
            }
        }
    }

    /// The next nonce in bytes, while there is one, and entropy for it.
    fn draw<V: Vault>(&self, vault: &V, s: u16) -> Option<[u8; 32]>
        ensures { elim result [ Some b ↦ (can_draw (V.holds vault.now) self.now.end.draws ≡ true) × (b ≡ hand_nonce (V.holds vault.now) s (held_in self.now)) | None ↦ can_draw (V.holds vault.now) self.now.end.draws ≡ false ] }
    {
        let index = self.end.draws;
        if index >= COUNTER_LIMIT {
            return None;
        }
        let snonce = Nonce {
            kind: 1,
            node: s as u64,
            index,
        };
        nonce(vault, snonce)
    }

    /// The keys of a pair that is offered to a gate.
    fn offer<V: Vault>(&mut self, vault: &V, gate: u64, nonces: Nonces)
        ensures keys { ring_of self.new ≡ slice_set (ring_of self.old) gate (with_offered_keys (record { nonces = nonces; key = pairwise_key (V.holds vault.now) gate nonces.anonce nonces.snonce }) (gate_keys gate (ring_of self.old))) }
        ensures same { self.new.end ≡ self.old.end }
    {
        if gate < self.end.many as u64 {
            let key = pair_key(vault, gate as u16, &nonces);
            let offered = PairKeys { nonces, key };
            let keys = self.gate(gate).keys;
            self.put_keys(gate, GateKeys { offered, ..keys });
        }
    }

    /// A begin: a nonce is drawn, if there is entropy for it, and the keys of the pair of both are offered.
    fn hear_begin<V: Vault>(
        &mut self,
        vault: &V,
        s: u16,
        cut: &Cut,
        gate: u64,
    ) -> Result<SealedEffect, Refusal>
        ensures { answered result (held_in self.new) (ring_of self.new) ≡ answer_of (V.holds vault.now).hash (hand_begun (V.holds vault.now) s gate cut.now (held_in self.old) (ring_of self.old)) }
    {
        let Some(snonce) = self.draw(vault, s) else {
            return Ok(SealedEffect::nothing());
        };
        let anonce = cut.nonces.anonce;
        self.offer(vault, gate, Nonces { anonce, snonce });
        self.hear_row(vault, s, cut.row.as_slice(), true)
    }

    /// Handheld `s` hears bytes.
    #[tactic(auto, unfolding(link::specs::Hands::hand_hears_bytes))]
    pub fn hear<V: Vault>(
        &mut self,
        vault: &V,
        s: u16,
        bytes: &[u8],
    ) -> Result<SealedEffect, Refusal>
        ensures { answered result (held_in self.new) (ring_of self.new) ≡ answer_of (V.holds vault.now).hash (hand_hears_bytes (V.holds vault.now) s bytes.now (held_in self.old) (ring_of self.old)) }
    {
        let cut = Cut::parse(bytes)?;
        let message = self.end.judge(self.end.many, s, cut.row.as_slice(), true)?;
        match message {
            Message::Begin { gate, .. } => self.hear_begin(vault, s, &cut, gate),
            _ => {
                let key = self.tag_key(&message, &cut.nonces);
                self.hear_tagged(vault, s, bytes, &cut, message, key)
            }
        }
    }
}
