//! A vault with no secrets.
ghost use Rattle.sealing_c.specs.Secretless.{no_secrets};

use sealing::Vault;
use sponge::shake256_parts3;

/// SHAKE256, with noughts for secrets and no entropy: sealing takes neither.
#[derive(Clone, Copy)]
pub(crate) struct Keyless;

impl Vault for Keyless {
    ghost holds = { λ _. no_secrets };

    #[tactic(auto, unfolding(sealing::specs::Secrets::digest))]
    #[inline(always)]
    fn digest(&self, label: &[u8], key: &[u8], bytes: &[u8], out: &mut [u8]) {
        shake256_parts3(label, key, bytes, out);
    }

    fn shared(&self, _peer: u16) -> [u8; 32] {
        [0; 32]
    }

    fn own(&self) -> [u8; 32] {
        [0; 32]
    }

    fn entropy(&self, _n: u64) -> Option<[u8; 21]> {
        None
    }
}
