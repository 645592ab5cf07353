//! SHAKE256 for C, as benchmarks/shake256 calls it: a slice is a pointer and then a length.

#![tactic(auto)]

ghost use Rattle.std.specs.Prelude.{◌≡◌, ◌++◌, length};
ghost use Rattle.sponge.specs.Sponge.{shake256 as SHAKE256};

use sponge::{shake256, shake256_parts3};

#[unsafe(no_mangle)]
pub extern "C" fn rattle_shake256(input: &[u8], out: &mut [u8])
    ensures { out.new ≡ SHAKE256 input.now (length out.old) }
{
    shake256(input, out);
}

#[unsafe(no_mangle)]
pub extern "C" fn rattle_shake256_parts3(label: &[u8], key: &[u8], bytes: &[u8], out: &mut [u8])
    ensures { out.new ≡ SHAKE256 (label.now ++ (key.now ++ bytes.now)) (length out.old) }
{
    shake256_parts3(label, key, bytes, out);
}
