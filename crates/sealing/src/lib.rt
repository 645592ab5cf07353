//! What an end draws on, and what it makes of it: keys, tags and keystreams.

#![tactic(auto)]

mod bytes;
mod file;
mod keys;
mod messages;
mod stream;
mod vault;

pub use bytes::{cover, same_bytes};
pub use file::{FileTooShort, FileVault};
pub use keys::{PairKeys, group_key, nonce, pair_key};
pub use messages::{open_body, open_key, seal, tag_is_right};
pub use vault::Vault;
