//! What an end draws on, in a file.
ghost use Rattle.std.specs.Prelude.{◌+◌, ◌*◌, ◌≤◌, vec_len};

mod read;

/// SHAKE256 over the secrets and the entropy of a file.
#[derive(Drop)]
pub struct FileVault {
    file: Vec<u8>,
    own: [u8; 32],
    /// Where the secret shared with peer 0 begins; those of the others and then the entropy follow.
    first: usize,
    peers: usize,
    ghost fits: { first + 32 * peers ≤ vec_len file },
}

/// A file that has not all the secrets.
#[derive(Clone, Copy)]
pub struct FileTooShort {
    pub needed: usize,
    pub found: usize,
}
