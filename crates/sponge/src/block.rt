//! Blocks of `RATE` bytes: how one enters the state, how the last is padded, and how one is read from the state.
ghost use Rattle.std.specs.Prelude.{◌≡◌, ◌+◌, ◌<◌, ◌≤◌, length};
ghost use Rattle.keccak.specs.Permutation.{keccak_f_lem};
ghost use Rattle.sponge.specs.Sponge.{from_bytes, xor_block, absorb_block, delimited, shake_suffix, padded, trunc, squeezed};

use keccak::{State, keccak_f};

/// In bytes: 1600 bits less the capacity of 512.
pub(crate) const RATE: usize = 136;

pub(crate) type Block = [u8; RATE];

/// The lane of eight bytes.
#[tactic(auto, unfolding(crate::specs::Sponge::from_bytes))]
fn lane(bytes: &[u8; 8]) -> u64
    ensures { result ≡ from_bytes bytes.now 0 }
{
    u64::from_le_bytes(*bytes)
}

#[tactic(auto, using(crate::proofs::Lanes::xor_block_is))]
fn xor(block: &Block, mut lanes: State) -> State
    ensures { result ≡ xor_block 136 block.now lanes }
{
    let (words, _) = block.as_chunks::<8>();
    for (i, word) in words.iter().enumerate() {
        lanes[i] ^= lane(word);
    }
    lanes
}

#[tactic(auto, unfolding(crate::specs::Sponge::absorb_block))]
pub(crate) fn absorb(state: &mut State, block: &Block)
    ensures { state.new ≡ absorb_block 136 block.now state.old }
{
    // by value: lanes that are written in place first are stored and read again
    let mixed = xor(block, *state);
    *state = mixed;
    keccak_f(state);
}

/// The suffix 1111 and, behind it, the first 1 of pad10*1; the lowest bit comes first.
const SHAKE_SUFFIX: u8 = 0x1f;

/// The last block of a message: what is left of it, and the padding.
#[tactic(auto, using(crate::proofs::Blocks::padded_is))]
pub(crate) fn pad(rest: &[u8]) -> Block
    requires { length rest.now < 136 }
    ensures { result ≡ padded 136 (delimited shake_suffix) rest.now }
{
    let n = rest.len();
    let mut block = [0u8; RATE];
    block[..n].copy_from_slice(rest);
    block[n] = SHAKE_SUFFIX;
    block[RATE - 1] |= 0x80;
    block
}

/// The block of output that a state holds.
fn read(lanes: &State) -> Block
    ensures { result ≡ trunc 17 lanes.now }
{
    let mut block = [0u8; RATE];
    for (i, lane) in lanes[..RATE / 8].iter().enumerate() {
        block[8 * i..8 * i + 8].copy_from_slice(&lane.to_le_bytes());
    }
    block
}

/// A block of output, after which the state is the next block's.
fn next_block(lanes: &mut State) -> Block
    ensures block { result ≡ trunc 17 lanes.old }
    ensures after { lanes.new ≡ keccak_f_lem lanes.old }
{
    let block = read(lanes);
    keccak_f(lanes);
    block
}

pub(crate) fn squeeze(lanes: &mut State, out: &mut [u8])
    ensures { out.new ≡ squeezed 136 (length out.old) lanes.old }
{
    // A block more of the state is made only where more output is wanted.
    let last = out.len().saturating_sub(1) / RATE;
    for i in 0..last {
        out[RATE * i..RATE * (i + 1)].copy_from_slice(&next_block(lanes));
    }
    let rest = &mut out[RATE * last..];
    let n = rest.len();
    rest.copy_from_slice(&read(lanes)[..n]);
}
