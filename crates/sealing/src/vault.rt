//! What an end draws on.
ghost use Rattle.std.specs.Prelude.{◌≡◌, true, false, length, Some, None};
ghost use Rattle.sealing.specs.Secrets.{Secrets, digest as digest_of, has_entropy, entropy_at};

/// A hash function, the secret shared with each peer, a secret of its own, and entropy.
pub trait Vault {
    ghost holds: { Self → Secrets };

    /// As many bytes as `out` has room for of the hash of `label`, `key` and `bytes`, joined.
    fn digest(&self, label: &[u8], key: &[u8], bytes: &[u8], out: &mut [u8])
        ensures { out.new ≡ digest_of (holds self.now).hash label.now key.now bytes.now (length out.old) };

    /// The secret shared with a peer.
    fn shared(&self, peer: u16) -> [u8; 32]
        ensures { result ≡ (holds self.now).shared peer };

    /// The secret of its own, from which a gate's group keys come.
    fn own(&self) -> [u8; 32]
        ensures { result ≡ (holds self.now).own };

    /// The entropy of the `n`-th nonce, if there is so much.
    fn entropy(&self, n: u64) -> Option<[u8; 21]>
        ensures { elim result [ Some e ↦ (has_entropy (holds self.now) n ≡ true) × (e ≡ entropy_at (holds self.now) n) | None ↦ has_entropy (holds self.now) n ≡ false ] };
}

/// `N` bytes of a vault's hash of `label`, `key` and `bytes`, joined.
pub(crate) fn digest<const N: usize, V: Vault>(
    vault: &V,
    label: &[u8],
    key: &[u8],
    bytes: &[u8],
) -> [u8; N]
    ensures { result ≡ digest_of (V.holds vault.now).hash label.now key.now bytes.now N }
{
    let mut out = [0; N];
    vault.digest(label, key, bytes, &mut out);
    out
}
