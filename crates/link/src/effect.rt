//! What comes of bytes that are heard, and of an act.
ghost use Rattle.std.specs.Prelude.{◌≡◌, None};

use frame::Message;
use octets::Octets;

/// What is said, in bytes, and what is delivered.
#[derive(Clone, Copy)]
pub struct SealedEffect {
    pub says: Option<Octets>,
    pub delivers: Option<Message>,
}

impl SealedEffect {
    pub fn nothing() -> SealedEffect
        ensures { result ≡ record { says = None; delivers = None } }
    {
        SealedEffect {
            says: None,
            delivers: None,
        }
    }
}
