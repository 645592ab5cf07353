//! A network in a state that its rules can lead to.
ghost use Rattle.std.specs.Prelude.{◌≤◌, length};
ghost use Rattle.promise.specs.Reach.{Reached};
ghost use Rattle.simulator.specs.Model.{world_of};

use crate::network::Network;

/// Gates, handhelds and the air between, as some events led to it: what is promised of every world that can be reached
/// is kept by every simulator.
#[derive(Drop)]
pub struct Simulator {
    pub(crate) network: Network,
    ghost few: { length (world_of network).transcript ≤ 10000 },
    ghost reached: { Reached (world_of network) },
}
