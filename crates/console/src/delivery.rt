//! What an end hands on.
ghost use Rattle.std.specs.Prelude.{◌≡◌};
ghost use Rattle.console.specs.Deliveries.{delivered_at_gate, delivered_at_hand};

use frame::Message;

/// A body that an end hands on, with the peer that it is from.
#[derive(Clone, Copy)]
pub struct Delivery {
    pub peer: u64,
    pub body: u64,
}

impl Delivery {
    /// What a handheld hands on of a message that is delivered: it is from a gate.
    pub fn at_hand(message: &Message) -> Option<Delivery>
        ensures { result ≡ delivered_at_hand message.now }
    {
        match *message {
            Message::Load { body, pair, .. } => Some(Delivery {
                peer: pair.gate,
                body,
            }),
            Message::All { gate, body, .. } => Some(Delivery { peer: gate, body }),
            Message::Begin { .. }
            | Message::Reply { .. }
            | Message::Take { .. }
            | Message::Taken { .. }
            | Message::Renew { .. } => None,
        }
    }

    /// What a gate hands on of a message that is delivered: it is from a handheld.
    pub fn at_gate(message: &Message) -> Option<Delivery>
        ensures { result ≡ delivered_at_gate message.now }
    {
        match *message {
            Message::Load { body, pair, .. } => Some(Delivery {
                peer: pair.hand,
                body,
            }),
            Message::Begin { .. }
            | Message::Reply { .. }
            | Message::Take { .. }
            | Message::Taken { .. }
            | Message::Renew { .. }
            | Message::All { .. } => None,
        }
    }
}
