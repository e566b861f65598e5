// FIPS 180-4, section 5.1.2: the padding behind what is left of a message; and section 6.5: the digest's bytes.
ghost use Rattle.std.specs.Prelude.{◌≡◌, ◌+◌, ◌-◌, ◌%◌, ◌<◌, ◌≤◌, ◌++◌, length, replicate};
ghost use Rattle.std.proofs.lemmas.List.Edits.{sets};
ghost use Rattle.sha384.specs.Words.{bytes};
ghost use Rattle.sha384.specs.Padding.{zeros, padding};
ghost use Rattle.sha384.specs.Hash.{left384};

use crate::State;
use wire::copy;

// Writes a word at `at`, the most significant byte first. It takes the place, and not the part: the check doesn't find that a part of
// an array which was written before (`&mut out[16..24]`) ends in it, so that six bounds would have to be shown by hand.
pub fn put_word(buffer: &mut [u8], at: usize, word: u64)
    requires { at + 8 ≤ length buffer.old }
    ensures { buffer.new ≡ sets buffer.old at (bytes 8 word) }
{
    buffer[at..at + 8].copy_from_slice(&word.to_be_bytes());
}

// How long the last block or two are, together, where `left` bytes of the message are left for them.
#[tactic(auto, unfolding(crate::specs::Padding::zeros))]
pub fn end(left: usize) -> usize
    requires { left < 128 }
    ensures { result ≡ left + 17 + zeros left }
{
    if left < 112 { 128 } else { 256 }
}

// What is left of a message of `total` bytes, its padding, and zeros up to two blocks.
pub fn last(left: &[u8], total: u64) -> [u8; 256]
    requires { length left.now ≡ total % 128 }
    ensures { result ≡ (left.now ++ padding total) ++ replicate (256 - length (left.now ++ padding total)) 0 }
{
    let mut last = [0u8; 256];
    // `copy` and not `copy_from_slice`: its contract has the write as `sets`, as those of the writes behind it do.
    copy(&mut last, 0, left);
    let at = left.len();
    last[at] = 0x80;
    let behind = end(at);
    // The length in bits takes 67 bits, so its two words are found without forming it.
    put_word(&mut last, behind - 16, total / 0x2000_0000_0000_0000);
    put_word(&mut last, behind - 8, total % 0x2000_0000_0000_0000 * 8);
    last
}

// The digest: six of the eight words.
pub fn left_384(s: State) -> [u8; 48]
    ensures { result ≡ left384 s }
{
    let mut out = [0u8; 48];
    put_word(&mut out, 0, s.a);
    put_word(&mut out, 8, s.b);
    put_word(&mut out, 16, s.c);
    put_word(&mut out, 24, s.d);
    put_word(&mut out, 32, s.e);
    put_word(&mut out, 40, s.f);
    out
}
