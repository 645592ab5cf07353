//! The parts of a message in bytes.

use frame::Row;

/// Both nonces of a pair in bytes.
#[derive(Clone, Copy)]
pub struct Nonces {
    /// The gate's.
    pub anonce: [u8; 32],
    /// The handheld's.
    pub snonce: [u8; 32],
}

impl Nonces {
    /// Noughts, where there is no pair.
    pub const NONE: Nonces = Nonces {
        anonce: [0; 32],
        snonce: [0; 32],
    };
}

/// A message cut from its bytes. A part that its kind has not is noughts.
#[derive(Clone, Copy)]
pub struct Cut {
    /// A body travels sealed, so 0 stands in its place.
    pub row: Row,
    pub nonces: Nonces,
    /// The sealed body.
    pub body: [u8; 8],
    /// The sealed group key.
    pub key: [u8; 32],
    /// How many bytes, from the first on, the tag is over.
    pub tagged: usize,
    pub tag: [u8; 16],
}
