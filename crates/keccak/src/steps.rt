//! The five step mappings of a round (FIPS 202, section 3.2), each as one straight line over the 25 lanes, so that
//! the compiler joins them with no array in between.
ghost use Rattle.std.specs.Prelude.{◌≡◌};
ghost use Rattle.keccak.specs.Permutation.{rotl, θ, ρ, π, χ, ι, Rnd};

use crate::State;

#[tactic(auto, unfolding(crate::specs::Permutation::rotl))]
fn theta(a: State) -> State
    ensures { result ≡ θ a }
{
    let c0 = a[0] ^ a[5] ^ a[10] ^ a[15] ^ a[20];
    let c1 = a[1] ^ a[6] ^ a[11] ^ a[16] ^ a[21];
    let c2 = a[2] ^ a[7] ^ a[12] ^ a[17] ^ a[22];
    let c3 = a[3] ^ a[8] ^ a[13] ^ a[18] ^ a[23];
    let c4 = a[4] ^ a[9] ^ a[14] ^ a[19] ^ a[24];
    let d0 = c4 ^ c1.rotate_left(1);
    let d1 = c0 ^ c2.rotate_left(1);
    let d2 = c1 ^ c3.rotate_left(1);
    let d3 = c2 ^ c4.rotate_left(1);
    let d4 = c3 ^ c0.rotate_left(1);
    [
        a[0] ^ d0,
        a[1] ^ d1,
        a[2] ^ d2,
        a[3] ^ d3,
        a[4] ^ d4,
        a[5] ^ d0,
        a[6] ^ d1,
        a[7] ^ d2,
        a[8] ^ d3,
        a[9] ^ d4,
        a[10] ^ d0,
        a[11] ^ d1,
        a[12] ^ d2,
        a[13] ^ d3,
        a[14] ^ d4,
        a[15] ^ d0,
        a[16] ^ d1,
        a[17] ^ d2,
        a[18] ^ d3,
        a[19] ^ d4,
        a[20] ^ d0,
        a[21] ^ d1,
        a[22] ^ d2,
        a[23] ^ d3,
        a[24] ^ d4,
    ]
}

#[tactic(auto, unfolding(crate::specs::Permutation::rotl))]
fn rho(a: State) -> State
    ensures { result ≡ ρ a }
{
    [
        a[0].rotate_left(0),
        a[1].rotate_left(1),
        a[2].rotate_left(62),
        a[3].rotate_left(28),
        a[4].rotate_left(27),
        a[5].rotate_left(36),
        a[6].rotate_left(44),
        a[7].rotate_left(6),
        a[8].rotate_left(55),
        a[9].rotate_left(20),
        a[10].rotate_left(3),
        a[11].rotate_left(10),
        a[12].rotate_left(43),
        a[13].rotate_left(25),
        a[14].rotate_left(39),
        a[15].rotate_left(41),
        a[16].rotate_left(45),
        a[17].rotate_left(15),
        a[18].rotate_left(21),
        a[19].rotate_left(8),
        a[20].rotate_left(18),
        a[21].rotate_left(2),
        a[22].rotate_left(61),
        a[23].rotate_left(56),
        a[24].rotate_left(14),
    ]
}

fn pi(a: State) -> State
    ensures { result ≡ π a }
{
    [
        a[0], a[6], a[12], a[18], a[24], a[3], a[9], a[10], a[16], a[22], a[1], a[7], a[13], a[19],
        a[20], a[4], a[5], a[11], a[17], a[23], a[2], a[8], a[14], a[15], a[21],
    ]
}

fn chi(a: State) -> State
    ensures { result ≡ χ a }
{
    [
        a[0] ^ (!a[1] & a[2]),
        a[1] ^ (!a[2] & a[3]),
        a[2] ^ (!a[3] & a[4]),
        a[3] ^ (!a[4] & a[0]),
        a[4] ^ (!a[0] & a[1]),
        a[5] ^ (!a[6] & a[7]),
        a[6] ^ (!a[7] & a[8]),
        a[7] ^ (!a[8] & a[9]),
        a[8] ^ (!a[9] & a[5]),
        a[9] ^ (!a[5] & a[6]),
        a[10] ^ (!a[11] & a[12]),
        a[11] ^ (!a[12] & a[13]),
        a[12] ^ (!a[13] & a[14]),
        a[13] ^ (!a[14] & a[10]),
        a[14] ^ (!a[10] & a[11]),
        a[15] ^ (!a[16] & a[17]),
        a[16] ^ (!a[17] & a[18]),
        a[17] ^ (!a[18] & a[19]),
        a[18] ^ (!a[19] & a[15]),
        a[19] ^ (!a[15] & a[16]),
        a[20] ^ (!a[21] & a[22]),
        a[21] ^ (!a[22] & a[23]),
        a[22] ^ (!a[23] & a[24]),
        a[23] ^ (!a[24] & a[20]),
        a[24] ^ (!a[20] & a[21]),
    ]
}

fn iota(mut a: State, constant: u64) -> State
    ensures { result ≡ ι constant a }
{
    a[0] ^= constant;
    a
}

/// A round. Inlined, so that the five steps run on lanes in registers.
#[inline(always)]
pub(crate) fn round(a: State, constant: u64) -> State
    ensures { result ≡ Rnd constant a }
{
    iota(chi(pi(rho(theta(a)))), constant)
}
