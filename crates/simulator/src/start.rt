//! A network as it is at first.
ghost use Rattle.std.specs.Prelude.{◌≡◌, ◌≤◌, true, false, ◌&&◌, All, IfOk, Some, None, vec_len, nat_le};
ghost use Rattle.protocol.specs.World.{start};
ghost use Rattle.simulator.specs.Model.{world_of};

use crate::network::Network;
use crate::simulator::Simulator;
use gateway::{Gateway, Post};
use handset::{Hand, Handset};
use std::alloc::{AllocError, Global};

/// The most gates.
const GATES: u64 = 8;

/// The most handhelds.
const HANDS: u64 = 32;

/// So many ends, each as it is made.
fn many<E: Drop, F: Fn() -> E>(heap: Global, count: usize, make: F) -> Result<Vec<E>, AllocError>
    requires { F.IsAlwaysCallable make }
    ensures { IfOk result (λ v. (vec_len v ≡ count) × All (λ e. F.post make e) v.items) }
{
    (0..count).map(|_| make()).collect(heap)
}

impl Network {
    fn new(heap: Global, gates: u8, hands: u16) -> Result<Network, AllocError>
        requires gates { gates ≤ 8 }
        requires hands { hands ≤ 32 }
        ensures { IfOk result (λ n. world_of n ≡ start gates hands) }
    {
        Ok(Network {
            gates: many(heap, gates as usize, || Gateway::fresh(hands))?,
            hands: many(heap, hands as usize, || Handset::fresh(gates))?,
            sent: Vec::new(heap),
            delivered: Vec::new(heap),
        })
    }
}

impl Simulator {
    /// So many gates and handhelds, of which nothing is held, sent or delivered yet; none where they are too many.
    pub fn new(heap: Global, gates: u64, hands: u64) -> Result<Option<Simulator>, AllocError>
        ensures { IfOk result (λ o. elim o [ Some d ↦ ((nat_le gates 8 && nat_le hands 32) ≡ true) × (world_of d.network ≡ start gates hands) | None ↦ (nat_le gates 8 && nat_le hands 32) ≡ false ]) }
    {
        if gates > GATES || hands > HANDS {
            return Ok(None);
        }
        let network = Network::new(heap, gates as u8, hands as u16)?;
        Ok(Some(Simulator { network }))
    }
}
