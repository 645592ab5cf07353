//! An endpoint that is being worked on.
ghost use Rattle.std.specs.Prelude.{◌^◌, ◌≤◌};

use crate::offer::Offer;
use frame::Pair;

/// What an endpoint holds of pairs.
pub enum State {
    Nothing,
    Offered(Offer),
    InUse(Pair),
    Both(Offer, Pair),
}

/// An endpoint whose counters are within their bounds: what it sent is at most 2^48, and what it heard below 2^49.
pub struct Session {
    pub state: State,
    pub send: u64,
    pub floor: u64,
    pub round: u64,
    ghost bounded: { (send ≤ 2 ^ 48) × (floor ≤ 2 ^ 49) × (round ≤ 2 ^ 49) },
}
