//! What a handheld holds.
ghost use Rattle.std.specs.Prelude.{◌≡◌, ◌≤◌, true, length};
ghost use Rattle.endpoint.specs.Tables.{all_of};
ghost use Rattle.handset.specs.Peers.{is_bounded_peer};

use protocol::GatePeer;

/// How many nonces it drew, how many gates there are, and what it holds for each.
#[derive(Drop)]
pub struct Handset {
    pub draws: u64,
    pub many: u8,
    pub peers: [GatePeer; 255],
    ghost fits: { many ≤ length peers },
    ghost bounded: { all_of is_bounded_peer peers ≡ true },
}
