//! What is played.
ghost use Rattle.std.specs.Prelude.{◌≤◌, vec_len};

use crate::log::Line;
use gateway::Gateway;
use handset::Handset;

/// All ends, what was ever sent and what was ever delivered, the latest last.
#[derive(Drop)]
pub struct Network {
    pub gates: Vec<Gateway>,
    pub hands: Vec<Handset>,
    pub sent: Vec<Line>,
    pub delivered: Vec<Line>,
    ghost gates_few: { vec_len gates ≤ 8 },
    ghost hands_few: { vec_len hands ≤ 32 },
}
