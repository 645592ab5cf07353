//! What is held for one peer: plain values, so that an end keeps them in arrays.

use frame::{Nonce, Pair};

/// Nobody draws more nonces, sends more frames under a key, or has more group keys or rounds.
pub const COUNTER_LIMIT: u64 = 1 << 48;

/// One end of a pairwise key.
#[derive(Clone, Copy)]
pub struct Endpoint {
    /// The pair that may come into use.
    pub offered: Option<Pair>,
    /// The pair in use.
    pub key: Option<Pair>,
    /// The counter of this end's next frame.
    pub send: u64,
    /// The replay floor: the least counter that is still accepted.
    pub floor: u64,
    /// The last rekey round.
    pub round: u64,
}

impl Endpoint {
    /// Nothing is offered or in use.
    pub const NEW: Endpoint = Endpoint {
        offered: None,
        key: None,
        send: 0,
        floor: 0,
        round: 0,
    };
}

/// What a handheld holds for one gate.
#[derive(Clone, Copy)]
pub struct GatePeer {
    pub end: Endpoint,
    /// The number of the gate's group key that it has; 0 is none.
    pub group: u64,
    /// The replay floor under that group key.
    pub floor: u64,
}

impl GatePeer {
    /// Nothing is held for the gate yet.
    pub const NEW: GatePeer = GatePeer {
        end: Endpoint::NEW,
        group: 0,
        floor: 0,
    };
}

/// A handshake that a gate has opened, by the nonce of its begin.
#[derive(Clone, Copy)]
pub struct Handshake {
    pub anonce: Nonce,
}

/// What a gate holds for one handheld.
#[derive(Clone, Copy)]
pub struct HandPeer {
    pub end: Endpoint,
    pub handshake: Option<Handshake>,
}

impl HandPeer {
    /// Nothing is held for the handheld yet.
    pub const NEW: HandPeer = HandPeer {
        end: Endpoint::NEW,
        handshake: None,
    };
}
