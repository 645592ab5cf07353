//! What each end holds and does, the world of all ends, and what is promised of it. The definitions are in specs/:
//! Held, Rules, Calls, World, Promise, and Cases, a table of worked examples.

#![tactic(auto)]

ghost use Rattle.protocol.specs.Rules.{NoReplay};
ghost use Rattle.protocol.specs.Calls.{RefusedIsQuiet};
ghost use Rattle.protocol.specs.Cases.{CasesHold};

mod acts;
mod held;

pub use acts::{GateAct, HandAct, NumberedAct};
pub use held::{COUNTER_LIMIT, Endpoint, GatePeer, HandPeer, Handshake};

/// The table of cases comes out as it says.
pub fn cases_stand()
    ensures { CasesHold }
{}

/// A refused row changes nothing, says nothing and delivers nothing.
pub fn refusals_stand()
    ensures { RefusedIsQuiet }
{}

/// A counter that was accepted is not accepted again, and none below the floor is.
pub fn replay_stands()
    ensures { NoReplay }
{}
