//! The counters of a session: each is handed out once.
ghost use Rattle.std.specs.Prelude.{◌≡◌, ◌+◌, ◌^◌, ◌<◌, ◌≤◌, if◌then◌else◌, Some, None, nat_lt};
ghost use Rattle.protocol.specs.Held.{with_send, with_floor, with_round};
ghost use Rattle.protocol.specs.Rules.{has_next, accepts, past};
ghost use Rattle.endpoint.specs.Session.{endpoint_of};

use crate::session::Session;
use protocol::COUNTER_LIMIT;

impl Session {
    /// The counter of the next frame, while there is one.
    pub fn next_send(&mut self) -> Option<u64>
        ensures given { result ≡ (if has_next self.old.send then Some self.old.send else None) }
        ensures held { endpoint_of self.new ≡ (if has_next self.old.send then with_send (self.old.send + 1) (endpoint_of self.old) else endpoint_of self.old) }
    {
        let counter = self.send;
        if counter >= COUNTER_LIMIT {
            return None;
        }
        self.send = counter + 1;
        Some(counter)
    }

    /// The next rekey round, while there is one.
    pub fn next_round(&mut self) -> Option<u64>
        ensures given { result ≡ (if has_next self.old.round then Some (self.old.round + 1) else None) }
        ensures held { endpoint_of self.new ≡ (if has_next self.old.round then with_round (self.old.round + 1) (endpoint_of self.old) else endpoint_of self.old) }
    {
        if self.round >= COUNTER_LIMIT {
            return None;
        }
        let round = self.round + 1;
        self.round = round;
        Some(round)
    }

    /// The replay check: whether a counter that is heard is accepted, which it is once.
    pub fn accept(&mut self, counter: u64) -> bool
        requires { counter < 2 ^ 49 }
        ensures whether { result ≡ accepts self.old.floor counter }
        ensures held { endpoint_of self.new ≡ (if accepts self.old.floor counter then with_floor (past counter) (endpoint_of self.old) else endpoint_of self.old) }
    {
        if counter < self.floor {
            return false;
        }
        self.floor = counter + 1;
        true
    }

    /// Whether a round that is heard is above the last, and then the last.
    pub fn advance(&mut self, round: u64) -> bool
        requires { round < 2 ^ 49 }
        ensures whether { result ≡ nat_lt self.old.round round }
        ensures held { endpoint_of self.new ≡ (if nat_lt self.old.round round then with_round round (endpoint_of self.old) else endpoint_of self.old) }
    {
        if round <= self.round {
            return false;
        }
        self.round = round;
        true
    }
}
