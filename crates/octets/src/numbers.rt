//! Numbers to bytes and back, the lowest byte first.
ghost use Rattle.std.specs.Prelude.{◌≡◌, ◌+◌, ◌^◌, ◌<◌, ◌≤◌, length, take, drop};
ghost use Rattle.octets.specs.Low.{low_first, from_low};

/// The low bytes of a number, as many as there is room for.
pub fn put(mut n: u64, out: &mut [u8])
    ensures { out.new ≡ low_first (length out.old) n }
{
    for byte in out.iter_mut() {
        *byte = (n & 0xff) as u8;
        n >>= 8;
    }
}

/// The `N` lowest bytes of a number.
pub fn low_bytes<const N: usize>(n: u64) -> [u8; N]
    ensures { result ≡ low_first N n }
{
    let mut out = [0; N];
    put(n, &mut out);
    out
}

/// The number that bytes stand for, of which the first eight count.
pub fn get(bytes: &[u8]) -> u64
    ensures { result ≡ from_low (take 8 bytes.now) }
{
    bytes[..bytes.len().min(8)]
        .iter()
        .rev()
        .fold(0, |n, byte| n << 8 | u64::from(*byte))
}

/// `N` bytes from the place `at` on.
pub fn bytes_at<const N: usize>(bytes: &[u8], at: usize) -> [u8; N]
    requires { at + N ≤ length bytes.now }
    ensures { result ≡ take N (drop at bytes.now) }
{
    let mut out = [0; N];
    out.copy_from_slice(&bytes[at..at + N]);
    out
}

/// The number in `N` bytes from the place `at` on.
pub(crate) fn number_at<const N: usize>(bytes: &[u8], at: usize) -> u64
    requires few { N ≤ 8 }
    requires there { at + N ≤ length bytes.now }
    ensures { result ≡ from_low (take N (drop at bytes.now)) }
{
    get(&bytes[at..at + N])
}

/// A number that fits its place is read as it was written.
pub fn put_then_get(n: u64, out: &mut [u8]) -> u64
    ensures { length out.old ≤ 8 → n < 256 ^ length out.old → result ≡ n }
{
    put(n, out);
    get(out)
}

/// At most eight bytes are written as they were read.
pub fn get_then_put(bytes: &[u8], out: &mut [u8])
    ensures { length bytes.now ≤ 8 → length out.old ≡ length bytes.now → out.new ≡ bytes.now }
{
    put(get(bytes), out);
}
