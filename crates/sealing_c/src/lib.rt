//! A load sealed and opened for C, as benchmarks/frame calls it: a slice is a pointer and then a length.

#![tactic(auto)]

ghost use Rattle.std.specs.Prelude.{◌≡◌, ◌≤◌, length, take, replicate, if◌then◌else◌};
ghost use Rattle.sponge.specs.Sponge.{shake256 as SHAKE256};
ghost use Rattle.sealing.specs.Seal.{octets_sealed, same_bytes, tag_of, opened_body};
ghost use Rattle.sealing_c.specs.Loads.{load_down};

use frame::{Direction, Message, Nonce, Pair};
use keyless::Keyless;
use octets::Nonces;
use sealing::{PairKeys, open_body, seal, tag_is_right};

mod keyless;

/// Handheld 7 of gate 1, and the first nonce of each.
fn load_down(counter: u64, body: u64) -> Message
    ensures { result ≡ load_down counter body }
{
    let anonce = Nonce {
        kind: 0,
        node: 1,
        index: 0,
    };
    let snonce = Nonce {
        kind: 1,
        node: 7,
        index: 0,
    };
    Message::Load {
        direction: Direction::Down,
        counter,
        body,
        pair: Pair {
            gate: 1,
            hand: 7,
            anonce,
            snonce,
        },
    }
}

/// How many bytes of `out` are the sealed load.
#[unsafe(no_mangle)]
pub extern "C" fn rattle_seal_load(
    counter: u64,
    body: u64,
    a: &[u8; 32],
    b: &[u8; 32],
    key: &[u8; 32],
    out: &mut [u8; 140],
) -> usize
    ensures { take result out.new ≡ octets_sealed SHAKE256 (record { message = load_down counter body; a = a.now; b = b.now; key = key.now; group = replicate 32 0 }) }
{
    let nonces = Nonces {
        anonce: *a,
        snonce: *b,
    };
    let keys = PairKeys { nonces, key: *key };
    let octets = seal(&Keyless, &load_down(counter, body), &keys, &[0; 32]);
    copy(octets.as_slice(), out)
}

#[tactic(auto, using(std::proofs::lemmas::List::take_at))]
fn copy(bytes: &[u8], out: &mut [u8]) -> usize
    requires { length bytes.now ≤ length out.old }
    ensures { take result out.new ≡ bytes.now }
{
    let n = bytes.len();
    out[..n].copy_from_slice(bytes);
    n
}

/// Whether the tag over `bytes` is right; then `body` is opened.
#[unsafe(no_mangle)]
pub extern "C" fn rattle_open_load(
    counter: u64,
    key: &[u8; 32],
    bytes: &[u8],
    tag: &[u8; 16],
    sealed: &[u8; 8],
    body: &mut u64,
) -> bool
    ensures right { result ≡ same_bytes (tag_of SHAKE256 key.now bytes.now) tag.now }
    ensures opened { body.new ≡ (if result then opened_body SHAKE256 key.now (load_down counter 0) sealed.now else body.old) }
{
    if !tag_is_right(&Keyless, key, bytes, tag) {
        return false;
    }
    *body = open_body(&Keyless, key, &load_down(counter, 0), sealed);
    true
}
