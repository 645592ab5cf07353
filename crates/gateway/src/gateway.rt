//! What a gate holds.
ghost use Rattle.std.specs.Prelude.{◌≡◌, ◌≤◌, true, length};
ghost use Rattle.endpoint.specs.Tables.{all_of};
ghost use Rattle.gateway.specs.Peers.{is_bounded_peer};

use protocol::HandPeer;

/// How many nonces it drew, its group key and the counter of its next frame to all, how many handhelds there are, and
/// what it holds for each.
#[derive(Drop)]
pub struct Gateway {
    pub draws: u64,
    pub group: u64,
    pub counter: u64,
    pub many: u16,
    pub peers: [HandPeer; 512],
    ghost few: { many ≤ 512 },
    ghost whole: { length peers ≡ 512 },
    ghost bounded: { all_of is_bounded_peer peers ≡ true },
}
