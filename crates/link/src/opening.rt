//! A message behind a right tag.
ghost use Rattle.std.specs.Prelude.{◌≡◌};
ghost use Rattle.octets.specs.Laws.{with_body};
ghost use Rattle.sealing.specs.Seal.{opened_body};

use frame::Message;
use sealing::{Vault, open_body};

/// The message with its body opened, if its kind has one.
pub fn open_message<V: Vault>(
    vault: &V,
    key: &[u8; 32],
    message: Message,
    sealed: &[u8; 8],
) -> Message
    ensures { result ≡ with_body (opened_body (V.holds vault.now).hash key.now message sealed.now) message }
{
    let mut opened = message;
    match &mut opened {
        Message::Load { body, .. } => *body = open_body(vault, key, &message, sealed),
        Message::All { body, .. } => *body = open_body(vault, key, &message, sealed),
        Message::Begin { .. }
        | Message::Reply { .. }
        | Message::Take { .. }
        | Message::Taken { .. }
        | Message::Renew { .. } => {}
    }
    opened
}
