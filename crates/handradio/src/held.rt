//! What a handheld holds over bytes.
ghost use Rattle.std.specs.Prelude.{◌≡◌, length};

use handset::Handset;
use link::GateKeys;
use protocol::GatePeer;

/// What the rules hold, and for each gate the keys beside it.
#[derive(Drop)]
pub struct HandLink {
    pub end: Handset,
    pub keys: [GateKeys; 255],
    ghost whole: { length keys ≡ 255 },
}

/// What is held for one gate: what the rules hold, and the keys beside it.
#[derive(Clone, Copy)]
pub(crate) struct Gate {
    pub peer: GatePeer,
    pub keys: GateKeys,
}

impl Gate {
    /// Nothing is held.
    pub(crate) const NONE: Gate = Gate {
        peer: GatePeer::NEW,
        keys: GateKeys::NONE,
    };
}
