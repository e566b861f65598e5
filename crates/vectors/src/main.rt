// Prints SHA-384 of the published messages, and of some at the padding's seams, one line for each: a label, a space and
// the digest in hex. The file `stdout` beside src/ has what a second program, coreutils' sha384sum, says of the same
// messages (tests/vectors), and the gate compares the two.

#![tactic(auto)]

ghost use Rattle.std.specs.Prelude.{◌<◌};

use std::io::Write;
use std::{array, io};

fn digit(n: u8) -> u8
    requires { n < 16 }
{
    if n < 10 { 48 + n } else { 87 + n }
}

fn hex(digest: &[u8; 48]) -> [u8; 96] {
    let mut text = [0u8; 96];
    for (i, &byte) in digest.iter().enumerate() {
        text[2 * i] = digit(byte / 16);
        text[2 * i + 1] = digit(byte % 16);
    }
    text
}

fn line<R: Print>(rt: &R, label: &[u8], digest: [u8; 48]) -> io::Result<()> {
    let text = hex(&digest);
    let mut out = io::writer(rt);
    out.write_all(label)?;
    out.write_all(b" ")?;
    out.write_all(&text)?;
    out.write_all(b"\n")
}

// One million times "a" is not lent whole but hashed by blocks: 7,812 of them, and 64 bytes that are left.
fn million() -> [u8; 48] {
    let a = [b'a'; 128];
    let mut state = sha384::start();
    for _ in 0..7812 {
        state = sha384::block(state, &a);
    }
    sha384::finish(state, &a[..64], 1_000_000)
}

// The message whose byte i is i modulo 251.
fn counted() -> [u8; 256] {
    array::from_fn(|i| (i % 251) as u8)
}

// The line for its first n bytes; nothing where it has fewer.
fn part<R: Print>(rt: &R, label: &[u8], bytes: &[u8; 256], n: usize) -> io::Result<()> {
    let whole: &[u8] = bytes;
    if n <= whole.len() {
        line(rt, label, sha384::digest(&whole[0..n]))?;
    }
    Ok(())
}

fn main(rt: HostRuntime) -> io::Result<()> {
    line(&rt, b"empty", sha384::digest(b""))?;
    line(&rt, b"abc", sha384::digest(b"abc"))?;
    line(
        &rt,
        b"896-bit",
        sha384::digest(
            b"abcdefghbcdefghicdefghijdefghijkefghijklfghijklmghijklmnhijklmnoijklmnopjklmnopqklmnopqrlmnopqrsmnopqrstnopqrstu",
        ),
    )?;
    line(&rt, b"million-a", million())?;
    let bytes = counted();
    part(&rt, b"bytes-111", &bytes, 111)?;
    part(&rt, b"bytes-112", &bytes, 112)?;
    part(&rt, b"bytes-113", &bytes, 113)?;
    part(&rt, b"bytes-127", &bytes, 127)?;
    part(&rt, b"bytes-128", &bytes, 128)?;
    part(&rt, b"bytes-129", &bytes, 129)?;
    part(&rt, b"bytes-256", &bytes, 256)
}
