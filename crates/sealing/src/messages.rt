//! Messages sealed and tagged, and opened behind a right tag.
ghost use Rattle.std.specs.Prelude.{◌≡◌};
ghost use Rattle.octets.specs.Layout.{octets_of, tagged_of};
ghost use Rattle.sealing.specs.Seal.{same_bytes, cover as cover_of, keystream as keystream_of, sealed_body, sealed_key, tag_of, octets_sealed, opened_body, opened_key};

use crate::bytes::{cover, same_bytes};
use crate::keys::PairKeys;
use crate::stream::keystream;
use crate::vault::{Vault, digest};
use frame::Message;
use octets::{Octets, get, low_bytes};

/// The bytes of a message: its body, or the group key that it carries, sealed, and all of it tagged. `keys` are the bytes
/// of its nonces, and the key of its tag and keystream.
#[tactic(auto, unfolding(crate::specs::Seal::octets_sealed))]
pub fn seal<V: Vault>(vault: &V, message: &Message, keys: &PairKeys, group: &[u8; 32]) -> Octets
    ensures { result ≡ octets_sealed (V.holds vault.now).hash (record { message = message.now; a = keys.now.nonces.anonce; b = keys.now.nonces.snonce; key = keys.now.key; group = group.now }) }
{
    let body = seal_body(vault, &keys.key, message);
    let carried = seal_key(vault, &keys.key, group, message);
    tagged(vault, message, keys, &body, &carried)
}

/// A message whose body and group key are sealed already, with its tag; a begin has none.
fn tagged<V: Vault>(
    vault: &V,
    message: &Message,
    keys: &PairKeys,
    body: &[u8; 8],
    carried: &[u8; 32],
) -> Octets
    ensures { result ≡ octets_of message.now keys.now.nonces.anonce keys.now.nonces.snonce body.now carried.now (tag_of (V.holds vault.now).hash keys.now.key (tagged_of message.now keys.now.nonces.anonce keys.now.nonces.snonce body.now carried.now)) }
{
    let mut out = Octets::write(message, &keys.nonces, body, carried);
    match *message {
        Message::Begin { .. } => {}
        Message::Reply { .. }
        | Message::Take { .. }
        | Message::Taken { .. }
        | Message::Renew { .. }
        | Message::Load { .. }
        | Message::All { .. } => {
            let tag = tag_of(vault, &keys.key, out.as_slice());
            // there is room for it behind any message
            let _ = out.push_tag(&tag);
        }
    }
    out
}

/// Whether the tag over `bytes` is that of `key`.
pub fn tag_is_right<V: Vault>(vault: &V, key: &[u8; 32], bytes: &[u8], tag: &[u8; 16]) -> bool
    ensures { result ≡ same_bytes (tag_of (V.holds vault.now).hash key.now bytes.now) tag.now }
{
    same_bytes(&tag_of(vault, key, bytes), tag)
}

/// The body of a message, opened.
pub fn open_body<V: Vault>(vault: &V, key: &[u8; 32], message: &Message, sealed: &[u8; 8]) -> u64
    ensures { result ≡ opened_body (V.holds vault.now).hash key.now message.now sealed.now }
{
    get(&covered(vault, key, message, *sealed))
}

/// The group key that a message carries, opened.
pub fn open_key<V: Vault>(
    vault: &V,
    key: &[u8; 32],
    message: &Message,
    sealed: &[u8; 32],
) -> [u8; 32]
    ensures { result ≡ opened_key (V.holds vault.now).hash key.now message.now sealed.now }
{
    covered(vault, key, message, *sealed)
}

/// The sealed body; noughts where a message has none.
fn seal_body<V: Vault>(vault: &V, key: &[u8; 32], message: &Message) -> [u8; 8]
    ensures { result ≡ sealed_body (V.holds vault.now).hash key.now message.now }
{
    match *message {
        Message::Load { body, .. } | Message::All { body, .. } => {
            covered(vault, key, message, low_bytes(body))
        }
        Message::Begin { .. }
        | Message::Reply { .. }
        | Message::Take { .. }
        | Message::Taken { .. }
        | Message::Renew { .. } => [0; 8],
    }
}

/// The sealed group key; noughts where a message carries none.
fn seal_key<V: Vault>(vault: &V, key: &[u8; 32], group: &[u8; 32], message: &Message) -> [u8; 32]
    ensures { result ≡ sealed_key (V.holds vault.now).hash key.now group.now message.now }
{
    match *message {
        Message::Take { .. } | Message::Renew { .. } => covered(vault, key, message, *group),
        Message::Begin { .. }
        | Message::Reply { .. }
        | Message::Taken { .. }
        | Message::Load { .. }
        | Message::All { .. } => [0; 32],
    }
}

/// A text under the keystream of a message.
fn covered<const N: usize, V: Vault>(
    vault: &V,
    key: &[u8; 32],
    message: &Message,
    mut text: [u8; N],
) -> [u8; N]
    ensures { result ≡ cover_of text.entry (keystream_of (V.holds vault.now).hash key.now message.now N) }
{
    let stream: [u8; N] = keystream(vault, key, message);
    cover(&mut text, &stream);
    text
}

#[tactic(auto, unfolding(crate::specs::Seal::tag_of))]
fn tag_of<V: Vault>(vault: &V, key: &[u8; 32], bytes: &[u8]) -> [u8; 16]
    ensures { result ≡ tag_of (V.holds vault.now).hash key.now bytes.now }
{
    digest(vault, b"mark", key, bytes)
}
