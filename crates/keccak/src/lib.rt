//! Keccak-f[1600], the permutation of FIPS 202 (section 3).

#![tactic(auto)]

ghost use Rattle.std.specs.Prelude.{◌≡◌};
ghost use Rattle.keccak.specs.Permutation.{keccak_f_lem};
ghost use Rattle.keccak.specs.Tables.{TablesFollow};

mod steps;

/// 25 lanes; lane (x, y) stands at 5y + x.
pub type State = [u64; 25];

const ROUND_CONSTANTS: [u64; 24] = [
    0x0000000000000001,
    0x0000000000008082,
    0x800000000000808a,
    0x8000000080008000,
    0x000000000000808b,
    0x0000000080000001,
    0x8000000080008081,
    0x8000000000008009,
    0x000000000000008a,
    0x0000000000000088,
    0x0000000080008009,
    0x000000008000000a,
    0x000000008000808b,
    0x800000000000008b,
    0x8000000000008089,
    0x8000000000008003,
    0x8000000000008002,
    0x8000000000000080,
    0x000000000000800a,
    0x800000008000000a,
    0x8000000080008081,
    0x8000000000008080,
    0x0000000080000001,
    0x8000000080008008,
];

/// The permutation, in place.
#[tactic(auto, using(crate::proofs::Rounds::rounds_more, crate::proofs::Rounds::rounds_all), unfolding(crate::specs::Permutation::keccak_f_lem))]
pub fn keccak_f(state: &mut State)
    ensures { state.new ≡ keccak_f_lem state.old }
{
    let mut lanes = *state;
    for constant in ROUND_CONSTANTS {
        let next = steps::round(lanes, constant);
        lanes = next;
    }
    *state = lanes;
}

/// A theorem: the definition's two tables are what the standard's algorithms give.
pub fn tables_follow()
    ensures { TablesFollow }
{}
