//! Who hears a message, and whether it may be answered.
ghost use Rattle.std.specs.Prelude.{◌≡◌, true, false};
ghost use Rattle.protocol.specs.World.{hearer};
ghost use Rattle.simulator.specs.Play.{is_answered};

use frame::{Direction, Message, Node};

/// The end that a message names; of a frame to all, this handheld.
pub(crate) fn hearer(hand: u64, message: &Message) -> Node
    ensures { result ≡ hearer hand message.now }
{
    match *message {
        Message::Begin { hand, .. } => Node::Hand(hand),
        Message::Reply { pair }
        | Message::Taken { pair }
        | Message::Load {
            direction: Direction::Up,
            pair,
            ..
        } => Node::Gate(pair.gate),
        Message::Take { pair, .. }
        | Message::Renew { pair, .. }
        | Message::Load {
            direction: Direction::Down,
            pair,
            ..
        } => Node::Hand(pair.hand),
        Message::All { .. } => Node::Hand(hand),
    }
}

/// Whether an end that hears the message may answer it.
pub(crate) fn is_answered(message: &Message) -> bool
    ensures { result ≡ is_answered message.now }
{
    match message {
        Message::Begin { .. } | Message::Reply { .. } | Message::Take { .. } => true,
        Message::Taken { .. }
        | Message::Renew { .. }
        | Message::Load { .. }
        | Message::All { .. } => false,
    }
}
