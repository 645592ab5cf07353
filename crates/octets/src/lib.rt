//! Messages as bytes: one layout for each kind, cut and written.

#![tactic(auto)]

mod buffer;
mod cut;
mod laws;
mod numbers;
mod parts;
mod reader;

pub use buffer::Octets;
pub use cut::nonce_of;
pub use laws::{open_gives_message, open_padded_gives_message, parse_then_write, write_then_parse};
pub use numbers::{bytes_at, get, get_then_put, low_bytes, put, put_then_get};
pub use parts::{Cut, Nonces};
