//! The seven kinds of message, and the closed list of refusals.

/// A number that is drawn once: by a gate (kind 0) or a handheld (kind 1), by which, and as its how manieth.
/// Anybody may invent a begin, so a nonce that is heard can hold any numbers.
#[derive(Clone, Copy, PartialEq, Eq)]
pub struct Nonce {
    pub kind: u64,
    pub node: u64,
    pub index: u64,
}

/// What names a pairwise key: a gate, a handheld and a nonce of each. As in the four-way handshake of 802.11,
/// `anonce` is the authenticator's, here the gate's, and `snonce` the supplicant's, here the handheld's.
#[derive(Clone, Copy, PartialEq, Eq)]
pub struct Pair {
    pub gate: u64,
    pub hand: u64,
    pub anonce: Nonce,
    pub snonce: Nonce,
}

/// An end by its name.
#[derive(Clone, Copy, PartialEq, Eq)]
pub enum Node {
    Gate(u64),
    Hand(u64),
}

/// Which way a load goes: down from the gate, or up to it.
#[derive(Clone, Copy, PartialEq, Eq)]
pub enum Direction {
    Up,
    Down,
}

/// A message, its numbers in the order in which its row has them. `group` is the number of a group key, and the
/// counter beside it that of the gate's next frame to all.
#[derive(Clone, Copy, PartialEq, Eq)]
pub enum Message {
    Begin {
        gate: u64,
        hand: u64,
        anonce: Nonce,
    },
    Reply {
        pair: Pair,
    },
    Take {
        group: u64,
        counter: u64,
        pair: Pair,
    },
    Taken {
        pair: Pair,
    },
    Renew {
        round: u64,
        group: u64,
        counter: u64,
        pair: Pair,
    },
    Load {
        direction: Direction,
        counter: u64,
        body: u64,
        pair: Pair,
    },
    All {
        gate: u64,
        group: u64,
        counter: u64,
        body: u64,
    },
}

/// Why a message is refused.
#[derive(Clone, Copy, PartialEq, Eq)]
pub enum Refusal {
    NoMessage,
    NotForThisEnd,
    WrongTag,
    NoRow,
}
