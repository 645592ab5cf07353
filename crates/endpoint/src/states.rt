//! From the plain endpoint of an array to a session and back, and what becomes of its pairs.
ghost use Rattle.std.specs.Prelude.{◌≡◌, true, false, Some, None};
ghost use Rattle.std.specs.Fn.{FnOnceReturnsAtMut};
ghost use Rattle.protocol.specs.Held.{with_offered, installed};
ghost use Rattle.endpoint.specs.Session.{is_bounded, offered_in, key_in, endpoint_of, installs};

use crate::offer::Offer;
use crate::session::{Session, State};
use frame::{NUMBER_LIMIT, Pair};
use protocol::{COUNTER_LIMIT, Endpoint};

impl State {
    fn of(offered: Option<Pair>, key: Option<Pair>) -> State
        ensures offer { offered_in result ≡ offered }
        ensures used { key_in result ≡ key }
    {
        match (offered, key) {
            (None, None) => State::Nothing,
            (Some(pair), None) => State::Offered(Offer { pair }),
            (None, Some(key)) => State::InUse(key),
            (Some(pair), Some(key)) => State::Both(Offer { pair }, key),
        }
    }

    fn apart(self) -> (Option<Pair>, Option<Pair>)
        ensures offer { result.0 ≡ offered_in self }
        ensures used { result.1 ≡ key_in self }
    {
        match self {
            State::Nothing => (None, None),
            State::Offered(offer) => (Some(offer.spend()), None),
            State::InUse(key) => (None, Some(key)),
            State::Both(offer, key) => (Some(offer.spend()), Some(key)),
        }
    }

    fn withdraw(self) -> State
        ensures offer { offered_in result ≡ None }
        ensures used { key_in result ≡ key_in self }
    {
        match self {
            state @ (State::Nothing | State::InUse(_)) => state,
            State::Offered(offer) => {
                offer.withdraw();
                State::Nothing
            }
            State::Both(offer, key) => {
                offer.withdraw();
                State::InUse(key)
            }
        }
    }

    fn offer(self, offer: Offer) -> State
        ensures offer { offered_in result ≡ Some offer.pair }
        ensures used { key_in result ≡ key_in self }
    {
        match self {
            State::Nothing => State::Offered(offer),
            State::Offered(old) => {
                old.withdraw();
                State::Offered(offer)
            }
            State::InUse(key) => State::Both(offer, key),
            State::Both(old, key) => {
                old.withdraw();
                State::Both(offer, key)
            }
        }
    }
}

impl Session {
    /// Changes what an endpoint has of pairs, by way of a session, which is made from it and given back whole.
    pub fn change<F: FnOnce(Session) -> Session>(end: &mut Endpoint, step: F)
        requires bounded { is_bounded end.old ≡ true }
        requires callable { F.IsAlwaysCallable step }
        ensures changed { (before after : Session) × (endpoint_of before ≡ end.old) × (end.new ≡ endpoint_of after) × F.post step before after }
        ensures bounded { is_bounded end.new ≡ true }
    {
        if let Some(session) = Session::open(end) {
            *end = step(session).close();
        }
    }

    /// The same for its counters, with what the step answers.
    pub fn count<R: Default, F: FnOnce(&mut Session) -> R>(end: &mut Endpoint, step: F) -> R
        requires bounded { is_bounded end.old ≡ true }
        requires callable { F.IsAlwaysCallable step }
        ensures counted { (before after : Session) × (endpoint_of before ≡ end.old) × (end.new ≡ endpoint_of after) × FnOnceReturnsAtMut F.FnOnce step before result after }
        ensures bounded { is_bounded end.new ≡ true }
    {
        let Some(mut session) = Session::open(end) else {
            return R::default();
        };
        let answer = step(&mut session);
        *end = session.close();
        answer
    }

    /// The session of an endpoint whose counters are within their bounds.
    pub fn open(end: &Endpoint) -> Option<Session>
        ensures { elim result [ Some s ↦ endpoint_of s ≡ end.now | None ↦ is_bounded end.now ≡ false ] }
    {
        if end.send <= COUNTER_LIMIT && end.floor <= NUMBER_LIMIT && end.round <= NUMBER_LIMIT {
            Some(Session {
                state: State::of(end.offered, end.key),
                send: end.send,
                floor: end.floor,
                round: end.round,
            })
        } else {
            None
        }
    }

    /// The plain endpoint, whole again.
    pub fn close(self) -> Endpoint
        ensures same { result ≡ endpoint_of self }
        ensures bounded { is_bounded result ≡ true }
    {
        let Session {
            state,
            send,
            floor,
            round,
        } = self;
        let (offered, key) = state.apart();
        Endpoint {
            offered,
            key,
            send,
            floor,
            round,
        }
    }

    pub fn offered(&self) -> Option<Pair>
        ensures { result ≡ (endpoint_of self.now).offered }
    {
        match &self.state {
            State::Offered(offer) | State::Both(offer, _) => Some(offer.pair),
            State::Nothing | State::InUse(_) => None,
        }
    }

    pub fn key(&self) -> Option<Pair>
        ensures { result ≡ (endpoint_of self.now).key }
    {
        match &self.state {
            State::InUse(key) | State::Both(_, key) => Some(*key),
            State::Nothing | State::Offered(_) => None,
        }
    }

    /// A new offer; what was on offer is no more.
    pub fn offer(mut self, offer: Offer) -> Session
        ensures { endpoint_of result ≡ with_offered (Some offer.pair) (endpoint_of self) }
    {
        self.state = self.state.offer(offer);
        self
    }

    /// Nothing is on offer any more.
    pub fn withdraw(mut self) -> Session
        ensures { endpoint_of result ≡ with_offered None (endpoint_of self) }
    {
        self.state = self.state.withdraw();
        self
    }

    /// Spends the offer: its pair is in use, and every counter begins anew. Without one nothing changes.
    pub fn install(self) -> Session
        ensures { endpoint_of result ≡ installs (endpoint_of self).offered (endpoint_of self) }
    {
        let Session {
            state,
            send,
            floor,
            round,
        } = self;
        match state {
            State::Offered(offer) | State::Both(offer, _) => Session::begin(offer.spend()),
            state @ (State::Nothing | State::InUse(_)) => Session {
                state,
                send,
                floor,
                round,
            },
        }
    }

    fn begin(key: Pair) -> Session
        ensures { endpoint_of result ≡ installed key }
    {
        Session {
            state: State::InUse(key),
            send: 0,
            floor: 0,
            round: 0,
        }
    }
}
