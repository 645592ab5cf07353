//! A sponge that absorbs a message part by part. `output s more n` is what comes out of `s` once `more` has gone in.
ghost use Rattle.std.specs.Prelude.{◌≡◌, ℕ, ◌+◌, ◌<◌, List, [], length};
ghost use Rattle.sponge.specs.Sponge.{shake256 as SHAKE256};
ghost use Rattle.sponge.specs.Output.{output, Absorbs};

use crate::block;
use crate::block::{Block, RATE};
use keccak::State;
use std::marker::Model;

/// `lanes` has absorbed every whole block so far; the first `filled` bytes of `block` wait for the rest of theirs.
#[derive(Drop)]
pub struct Sponge {
    lanes: State,
    block: Block,
    filled: usize,
}

impl Model for Sponge {
    ghost use Rattle.std.specs.Prelude.{◌<◌, take};
    ghost use Rattle.sponge.specs.Absorbing.{Absorbing};

    ghost Value = { Absorbing };

    ghost view = { λ s. record { lanes = s.lanes; waiting = take s.filled s.block } };

    ghost invariant = { λ s. s.filled < 136 };
}

impl Sponge {
    /// A sponge of SHAKE256 that has absorbed nothing.
    #[tactic(auto, unfolding(crate::specs::Output::output, crate::specs::Sponge::keccak, crate::specs::Sponge::shake256))]
    pub fn new() -> Sponge
        ensures { (message : List ℕ) (n : ℕ) → output result message n ≡ SHAKE256 message n }
    {
        Sponge {
            lanes: [0u64; 25],
            block: [0u8; RATE],
            filled: 0,
        }
    }

    /// Takes in `part`, behind what was absorbed before.
    #[inline(always)]
    pub fn absorb(&mut self, part: &[u8])
        ensures { Absorbs self.old part.now self.new }
    {
        let mut rest = part;
        while let Some((head, tail)) = rest.split_at_checked(RATE - self.filled) {
            self.complete_block(head);
            rest = tail;
        }
        self.start_block(rest);
    }

    /// Fills `out` with the first bytes of the output of what was absorbed so far.
    pub fn squeeze_into(&self, out: &mut [u8])
        ensures { out.new ≡ output self.now [] (length out.old) }
    {
        let n = self.filled;
        let last = block::pad(&self.block[..n]);
        let mut lanes = self.lanes;
        block::absorb(&mut lanes, &last);
        block::squeeze(&mut lanes, out);
    }

    fn complete_block(&mut self, head: &[u8])
        requires { length self.old.waiting + length head.now ≡ 136 }
        ensures { Absorbs self.old head.now self.new }
    {
        let n = self.filled;
        self.block[n..].copy_from_slice(head);
        block::absorb(&mut self.lanes, &self.block);
        self.filled = 0;
    }

    #[inline(always)]
    fn start_block(&mut self, tail: &[u8])
        requires { length self.old.waiting + length tail.now < 136 }
        ensures { Absorbs self.old tail.now self.new }
    {
        let n = self.filled;
        let end = n + tail.len();
        self.block[n..end].copy_from_slice(tail);
        self.filled = end;
    }
}
