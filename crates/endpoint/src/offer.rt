//! A pair on offer, as a value that is spent.
ghost use Rattle.std.specs.Prelude.{◌≡◌};

use frame::Pair;

/// A pair that may come into use. It can be neither copied nor let go: it is taken into use or withdrawn.
pub struct Offer {
    pub pair: Pair,
}

impl Offer {
    /// The pair, which is no longer on offer.
    pub fn spend(self) -> Pair
        ensures { result ≡ self.pair }
    {
        let Offer { pair } = self;
        pair
    }

    pub fn withdraw(self) {
        let Offer { pair: _ } = self;
    }
}
