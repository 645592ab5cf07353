//! What was said and delivered, and what came of a command.
use frame::{Message, Node};

/// A message, with the end that sent it or that it was delivered to.
#[derive(Clone, Copy)]
pub struct Line {
    pub node: Node,
    pub message: Message,
}

/// What a step came to: the message that was sent, which is the `place`-th of all, and the one that was delivered.
#[derive(Clone, Copy)]
pub struct Played {
    pub place: u64,
    pub sent: Option<Line>,
    pub delivered: Option<Line>,
}

/// Why a command was not played: nothing has moved.
#[derive(Clone, Copy)]
pub enum Unplayed {
    /// It names a gate or a handheld that is not there.
    Absent,
    /// There is no place for another message.
    Full,
    NoMemory,
}
