//! Key material, held beside what the rules hold: plain values, so that an end keeps them in arrays. What is not held is
//! noughts.

use sealing::PairKeys;

/// What a handheld holds for one gate.
#[derive(Clone, Copy)]
pub struct GateKeys {
    pub offered: PairKeys,
    pub installed: PairKeys,
    /// The gate's group key.
    pub group: [u8; 32],
}

impl GateKeys {
    /// Nothing is held.
    pub const NONE: GateKeys = GateKeys {
        offered: PairKeys::NONE,
        installed: PairKeys::NONE,
        group: [0; 32],
    };
}

/// What a gate holds for one handheld.
#[derive(Clone, Copy)]
pub struct HandKeys {
    pub offered: PairKeys,
    pub installed: PairKeys,
    /// The gate's nonce of the open handshake.
    pub anonce: [u8; 32],
}

impl HandKeys {
    /// Nothing is held.
    pub const NONE: HandKeys = HandKeys {
        offered: PairKeys::NONE,
        installed: PairKeys::NONE,
        anonce: [0; 32],
    };
}

/// The key of a message's tag, as far as an end has it.
#[derive(Clone, Copy)]
pub enum TagKey {
    /// The end has not the key.
    Missing,
    /// The numbers are those of a pair that it has, but the bytes of a nonce are others.
    Mismatch,
    Key([u8; 32]),
}
