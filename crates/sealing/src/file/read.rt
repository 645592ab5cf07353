//! What a file holds, read.
ghost use Rattle.std.specs.Prelude.{◌≡◌, ◌+◌, ◌*◌, ◌<◌, ◌≤◌, length, drop, Ok, Err, vec_len};
ghost use Rattle.sealing.specs.File.{gate_file, hand_file, secrets_of};

use super::{FileTooShort, FileVault};
use crate::vault::Vault;
use octets::bytes_at;
use sponge::shake256_parts3;

impl FileVault {
    /// A gate's file: its own secret, then the secrets that it shares, handheld by handheld, then entropy.
    pub fn for_gate(file: Vec<u8>, hands: u16) -> Result<FileVault, FileTooShort>
        ensures { elim result [ Ok v ↦ (32 + 32 * hands ≤ vec_len file) × (secrets_of v ≡ gate_file hands file.items) | Err e ↦ (vec_len file < 32 + 32 * hands) × (e.needed ≡ 32 + 32 * hands) × (e.found ≡ vec_len file) ] }
    {
        let peers = hands as usize;
        has_bytes(file.as_slice(), 32 + 32 * peers)?;
        let own = bytes_at(file.as_slice(), 0);
        Ok(FileVault {
            file,
            own,
            first: 32,
            peers,
        })
    }

    /// A handheld's file: the secrets that it shares, gate by gate, then entropy.
    pub fn for_hand(file: Vec<u8>, gates: u8) -> Result<FileVault, FileTooShort>
        ensures { elim result [ Ok v ↦ (32 * gates ≤ vec_len file) × (secrets_of v ≡ hand_file gates file.items) | Err e ↦ (vec_len file < 32 * gates) × (e.needed ≡ 32 * gates) × (e.found ≡ vec_len file) ] }
    {
        let peers = gates as usize;
        has_bytes(file.as_slice(), 32 * peers)?;
        Ok(FileVault {
            file,
            own: [0; 32],
            first: 0,
            peers,
        })
    }

    #[tactic(auto, using(std::proofs::lemmas::Slice::between_to_end))]
    fn all_entropy(&self) -> &[u8]
        ensures { result.now ≡ drop (self.now.first + 32 * self.now.peers) self.now.file.items }
    {
        &self.file.as_slice()[self.first + 32 * self.peers..]
    }
}

impl Vault for FileVault {
    ghost holds = { secrets_of };

    #[tactic(auto, unfolding(crate::specs::Secrets::digest))]
    #[inline(always)]
    fn digest(&self, label: &[u8], key: &[u8], bytes: &[u8], out: &mut [u8]) {
        shake256_parts3(label, key, bytes, out);
    }

    fn shared(&self, peer: u16) -> [u8; 32] {
        let peer = peer as usize;
        if peer >= self.peers {
            return [0; 32];
        }
        bytes_at(self.file.as_slice(), self.first + 32 * peer)
    }

    fn own(&self) -> [u8; 32] {
        self.own
    }

    fn entropy(&self, n: u64) -> Option<[u8; 21]> {
        let (nonces, _) = self.all_entropy().as_chunks();
        nonces.get(n as usize).copied()
    }
}

/// Whether a file is as long as its secrets take.
fn has_bytes(file: &[u8], needed: usize) -> Result<(), FileTooShort>
    ensures { elim result [ Ok _ ↦ needed ≤ length file.now | Err e ↦ (length file.now < needed) × (e.needed ≡ needed) × (e.found ≡ length file.now) ] }
{
    let found = file.len();
    if found < needed {
        return Err(FileTooShort { needed, found });
    }
    Ok(())
}
