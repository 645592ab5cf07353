//! What a gate holds over bytes.
ghost use Rattle.std.specs.Prelude.{◌≡◌, length};

use gateway::Gateway;
use link::HandKeys;
use protocol::HandPeer;

/// What the rules hold, the bytes of the group key, and for each handheld the keys beside it.
#[derive(Drop)]
pub struct GateLink {
    pub end: Gateway,
    pub group: [u8; 32],
    pub keys: [HandKeys; 512],
    ghost whole: { length keys ≡ 512 },
}

/// What is held for one handheld: what the rules hold, and the keys beside it.
#[derive(Clone, Copy)]
pub(crate) struct Handheld {
    pub peer: HandPeer,
    pub keys: HandKeys,
}

impl Handheld {
    /// Nothing is held.
    pub(crate) const NONE: Handheld = Handheld {
        peer: HandPeer::NEW,
        keys: HandKeys::NONE,
    };
}
