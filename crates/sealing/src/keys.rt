//! Keys and nonces.
ghost use Rattle.std.specs.Prelude.{◌≡◌, true, false, ◌++◌, Some, None};
ghost use Rattle.sealing.specs.Secrets.{digest as digest_of, pairwise_key, group_key, has_entropy, entropy_at, nonce_bytes};

use crate::bytes::joined;
use crate::vault::{Vault, digest};
use frame::Nonce;
use octets::{Nonces, low_bytes};

/// Both nonces of a pair in bytes, and its pairwise key.
#[derive(Clone, Copy)]
pub struct PairKeys {
    pub nonces: Nonces,
    pub key: [u8; 32],
}

impl PairKeys {
    /// Noughts, where there is no pair.
    pub const NONE: PairKeys = PairKeys {
        nonces: Nonces::NONE,
        key: [0; 32],
    };
}

/// The pairwise key with a peer, of both nonces in bytes, the gate's first.
#[tactic(auto, unfolding(crate::specs::Secrets::pairwise_key))]
pub fn pair_key<V: Vault>(vault: &V, peer: u16, nonces: &Nonces) -> [u8; 32]
    ensures { result ≡ pairwise_key (V.holds vault.now) peer nonces.now.anonce nonces.now.snonce }
{
    let both: [u8; 64] = joined(&nonces.anonce, &nonces.snonce);
    digest(vault, b"pair", &vault.shared(peer), &both)
}

/// A gate's `n`-th group key.
#[tactic(auto, unfolding(crate::specs::Secrets::group_key))]
pub fn group_key<V: Vault>(vault: &V, n: u64) -> [u8; 32]
    ensures { result ≡ group_key (V.holds vault.now) n }
{
    digest(vault, b"all", &vault.own(), &low_bytes::<8>(n))
}

/// A nonce in bytes, if there is entropy left for it: its three numbers, of which the last counts an end's nonces, and
/// then the entropy.
pub fn nonce<V: Vault>(vault: &V, nonce: Nonce) -> Option<[u8; 32]>
    ensures { elim result [ Some x ↦ (has_entropy (V.holds vault.now) nonce.index ≡ true) × (x ≡ nonce_bytes nonce.kind nonce.node nonce.index (entropy_at (V.holds vault.now) nonce.index)) | None ↦ has_entropy (V.holds vault.now) nonce.index ≡ false ] }
{
    let entropy = vault.entropy(nonce.index)?;
    Some(with_entropy(&nonce, &entropy))
}

#[tactic(auto, unfolding(crate::specs::Secrets::nonce_bytes))]
fn with_entropy(nonce: &Nonce, entropy: &[u8; 21]) -> [u8; 32]
    ensures { result ≡ nonce_bytes nonce.now.kind nonce.now.node nonce.now.index entropy.now }
{
    let indexed: [u8; 29] = joined(&low_bytes::<8>(nonce.index), entropy);
    let named: [u8; 31] = joined(&low_bytes::<2>(nonce.node), &indexed);
    joined(&low_bytes::<1>(nonce.kind), &named)
}
