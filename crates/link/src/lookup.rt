//! The key of a tag, among those that are held.
ghost use Rattle.std.specs.Prelude.{◌≡◌};
ghost use Rattle.link.specs.Keys.{matching as matching_of, held_key};

use crate::keys::TagKey;
use endpoint::is_this;
use frame::Pair;
use octets::Nonces;
use protocol::Endpoint;
use sealing::{PairKeys, same_bytes};

/// The key held for a pair, if both nonces are those held, to the last byte.
fn matching(nonces: &Nonces, keys: &PairKeys) -> TagKey
    ensures { result ≡ matching_of nonces.now.anonce nonces.now.snonce keys.now }
{
    let held = &keys.nonces;
    if same_bytes(&nonces.anonce, &held.anonce) && same_bytes(&nonces.snonce, &held.snonce) {
        TagKey::Key(keys.key)
    } else {
        TagKey::Mismatch
    }
}

/// The key of the pair, if it is offered, or else if it is in use.
pub fn held_key(
    pair: &Pair,
    nonces: &Nonces,
    end: &Endpoint,
    offered: &PairKeys,
    installed: &PairKeys,
) -> TagKey
    ensures { result ≡ held_key pair.now nonces.now.anonce nonces.now.snonce end.now offered.now installed.now }
{
    if is_this(pair, &end.offered) {
        matching(nonces, offered)
    } else if is_this(pair, &end.key) {
        matching(nonces, installed)
    } else {
        TagKey::Missing
    }
}
