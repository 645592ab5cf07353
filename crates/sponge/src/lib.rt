//! SHAKE256 (FIPS 202, sections 4 to 6), of a whole message or of parts that come one after the other.

#![tactic(auto)]

ghost use Rattle.std.specs.Prelude.{◌≡◌, ◌++◌, length};
ghost use Rattle.std.specs.List.{flat_map};
ghost use Rattle.sponge.specs.Padding.{PaddingFollows};
ghost use Rattle.sponge.specs.Sponge.{shake256 as SHAKE256};

mod block;
mod streaming;

pub use streaming::Sponge;

/// Fills `out` with the first bytes of SHAKE256 of `input`.
pub fn shake256(input: &[u8], out: &mut [u8])
    ensures { out.new ≡ SHAKE256 input.now (length out.old) }
{
    shake256_parts(&[input], out);
}

/// Fills `out` with the first bytes of SHAKE256 of `label`, `key` and `bytes`, joined.
#[inline(always)]
pub fn shake256_parts3(label: &[u8], key: &[u8], bytes: &[u8], out: &mut [u8])
    ensures { out.new ≡ SHAKE256 (label.now ++ (key.now ++ bytes.now)) (length out.old) }
{
    shake256_parts(&[label, key, bytes], out);
}

/// Fills `out` with the first bytes of SHAKE256 of `parts`, joined.
#[inline(always)]
pub fn shake256_parts(parts: &[&[u8]], out: &mut [u8])
    ensures { out.new ≡ SHAKE256 (flat_map (λ part. part.now) parts.now) (length out.old) }
{
    let mut sponge = Sponge::new();
    for part in parts {
        sponge.absorb(part);
    }
    sponge.squeeze_into(out);
}

/// A theorem: the padding in bytes is the standard's, in bits.
#[tactic(auto, using(crate::proofs::Bits::padding_follows_lem))]
pub fn padding_follows()
    ensures { PaddingFollows }
{}
