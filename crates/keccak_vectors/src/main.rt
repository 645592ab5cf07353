//! Prints SHAKE256 of many messages, whole and in parts; each is a prefix of one message, and a digest of 16 bytes
//! stands for a longer answer. The file `stdout` has what another implementation gives: tools/shake256_vectors.py
//! makes it.

#![tactic(auto)]

ghost use Rattle.std.specs.Prelude.{◌≡◌, ◌≤◌, length};
ghost use Rattle.sponge.specs.Sponge.{shake256 as SHAKE256};

use sponge::{Sponge, shake256, shake256_parts3};
use std::{array, fmt, io};

const LONGEST: usize = 600;

const LENGTHS_CUT: [usize; 11] = [0, 1, 50, 135, 136, 137, 200, 271, 272, 273, 300];

/// 0, 1, .. 250, 0, 1, ..
fn message() -> [u8; LONGEST] {
    array::from_fn(|i| (i % 251) as u8)
}

/// The first `N` bytes of SHAKE256 of `bytes`.
fn digest<const N: usize>(bytes: &[u8]) -> [u8; N]
    ensures { result ≡ SHAKE256 bytes.now N }
{
    let mut out = [0u8; N];
    shake256(bytes, &mut out);
    out
}

fn output(bytes: &[u8], out: &mut [u8]) -> [u8; 16]
    ensures { result ≡ SHAKE256 (SHAKE256 bytes.now (length out.old)) 16 }
{
    shake256(bytes, out);
    digest(out)
}

fn cut(bytes: &[u8], i: usize, j: usize) -> [u8; 32]
    requires { (i ≤ j) × (j ≤ length bytes.now) }
{
    let mut out = [0u8; 32];
    shake256_parts3(&bytes[..i], &bytes[i..j], &bytes[j..], &mut out);
    out
}

/// In three parts, the first of `i` bytes and the second of every length.
fn parts(bytes: &[u8], i: usize) -> [u8; 16]
    requires { i ≤ length bytes.now }
{
    let mut answers = Sponge::new();
    for j in i..=bytes.len() {
        answers.absorb(&cut(bytes, i, j));
    }
    squeezed(&answers)
}

/// In parts of `n` bytes.
fn chunks(bytes: &[u8], n: usize) -> [u8; 16]
    requires { 1 ≤ n }
{
    let mut sponge = Sponge::new();
    for part in bytes.chunks(n) {
        sponge.absorb(part);
    }
    squeezed(&sponge)
}

fn squeezed<const N: usize>(sponge: &Sponge) -> [u8; N] {
    let mut out = [0u8; N];
    sponge.squeeze_into(&mut out);
    out
}

/// Bytes in hexadecimal.
#[derive(Drop)]
struct Hex<'a>(&'a [u8]);

impl fmt::Display for Hex<'_> {
    fn fmt<W: fmt::Write>(&self, f: &mut fmt::Formatter<W>) -> fmt::Result {
        for byte in self.0 {
            write!(f, "{byte:02x}")?;
        }
        Ok(())
    }
}

fn line(rt: &impl Print, kind: &str, a: usize, b: usize, bytes: &[u8]) -> io::Result<()> {
    let bytes = Hex(bytes);
    println!(rt; "{kind} {a} {b} {bytes}")
}

fn print_whole(rt: &impl Print, message: &[u8; LONGEST]) -> io::Result<()> {
    for n in 0..=420usize {
        line(rt, "whole", n, 32, &digest::<32>(&message[..n]))?;
    }
    Ok(())
}

fn print_outputs(rt: &impl Print, message: &[u8; LONGEST]) -> io::Result<()> {
    for n in 1..=LONGEST {
        let mut out = [0u8; LONGEST];
        line(rt, "output", LONGEST, n, &output(message, &mut out[..n]))?;
    }
    Ok(())
}

fn print_parts(rt: &impl Print, message: &[u8; LONGEST]) -> io::Result<()> {
    for n in LENGTHS_CUT {
        for i in 0..=n {
            line(rt, "parts", n, i, &parts(&message[..n], i))?;
        }
    }
    Ok(())
}

fn print_chunks(rt: &impl Print, message: &[u8; LONGEST]) -> io::Result<()> {
    for n in 1..=300usize {
        line(rt, "chunks", LONGEST, n, &chunks(message, n))?;
    }
    Ok(())
}

fn main(rt: HostRuntime) -> io::Result<()> {
    let message = message();
    print_whole(&rt, &message)?;
    print_outputs(&rt, &message)?;
    print_parts(&rt, &message)?;
    print_chunks(&rt, &message)
}
