//! Bytes compared, covered and joined.
ghost use Rattle.std.specs.Prelude.{◌≡◌, ◌+◌, ◌++◌, length};
ghost use Rattle.sealing.specs.Seal.{cover as cover_of, same_bytes};

/// Whether bytes are the same, in a time that depends on their lengths and not on where they differ.
pub fn same_bytes(x: &[u8], y: &[u8]) -> bool
    ensures { result ≡ same_bytes x.now y.now }
{
    if x.len() != y.len() {
        return false;
    }
    let mut difference = 0;
    for (a, b) in x.iter().zip(y) {
        difference |= *a ^ *b;
    }
    difference == 0
}

/// Exclusive or with a keystream, which also takes it off again; what the keystream does not reach stays.
pub fn cover(text: &mut [u8], mut stream: &[u8])
    ensures { text.new ≡ cover_of text.old stream.now }
{
    for byte in text.iter_mut() {
        let [mask, rest @ ..] = stream else {
            return;
        };
        *byte ^= *mask;
        stream = rest;
    }
}

/// `front` and then `back`.
#[tactic(auto, using(std::proofs::lemmas::Slice::overwrites))]
pub(crate) fn joined<const N: usize>(front: &[u8], back: &[u8]) -> [u8; N]
    requires { length front.now + length back.now ≡ N }
    ensures { result ≡ front.now ++ back.now }
{
    let n = front.len();
    let mut out = [0; N];
    let all = &mut out[..];
    all[..n].copy_from_slice(front);
    all[n..].copy_from_slice(back);
    out
}
