//! What comes of a rule besides what is held.
ghost use Rattle.std.specs.Prelude.{◌≡◌, Some, None};

use frame::Message;

/// What is said and what is delivered.
#[derive(Clone, Copy, PartialEq, Eq)]
pub struct Effect {
    pub says: Option<Message>,
    pub delivers: Option<Message>,
}

impl Effect {
    pub fn nothing() -> Effect
        ensures { result ≡ record { says = None; delivers = None } }
    {
        Effect {
            says: None,
            delivers: None,
        }
    }

    pub fn say(message: Message) -> Effect
        ensures { result ≡ record { says = Some message; delivers = None } }
    {
        Effect {
            says: Some(message),
            delivers: None,
        }
    }

    pub fn deliver(message: Message) -> Effect
        ensures { result ≡ record { says = None; delivers = Some message } }
    {
        Effect {
            says: None,
            delivers: Some(message),
        }
    }
}
