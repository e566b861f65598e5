// FIPS 180-4, section 6.4.2, step 1: the message schedule of a block.
ghost use Rattle.std.specs.Prelude.{◌≡◌, ◌+◌, ◌≤◌, length, take};
ghost use Rattle.sha384.specs.Words.{word_at};
ghost use Rattle.sha384.specs.Hash.{schedule, later_word};

use crate::words::{small_sigma0, small_sigma1};

// The word in the eight bytes at `at`, the most significant byte first.
#[tactic(auto, unfolding(crate::specs::Words::word_at))]
pub fn word_at(s: &[u8], at: usize) -> u64
    requires { at + 8 ≤ length s.now }
    ensures { result ≡ word_at s.now at }
{
    u64::from_be_bytes([
        s[at],
        s[at + 1],
        s[at + 2],
        s[at + 3],
        s[at + 4],
        s[at + 5],
        s[at + 6],
        s[at + 7],
    ])
}

// The first sixteen words are those of the block; the others are 0 yet.
#[tactic(auto, unfolding(crate::specs::Hash::schedule))]
fn first_words(block: &[u8]) -> [u64; 80]
    requires { length block.now ≡ 128 }
    ensures { take 16 result ≡ schedule block.now 16 }
{
    let mut w = [0u64; 80];
    for t in 0..16 {
        w[t] = word_at(block, 8 * t);
    }
    w
}

// A later word, from four before it.
#[tactic(auto, unfolding(crate::specs::Hash::later_word))]
fn next_word(w2: u64, w7: u64, w15: u64, w16: u64) -> u64
    ensures { result ≡ later_word w2 w7 w15 w16 }
{
    small_sigma1(w2)
        .wrapping_add(w7)
        .wrapping_add(small_sigma0(w15))
        .wrapping_add(w16)
}

// All eighty words.
pub fn words(block: &[u8]) -> [u64; 80]
    requires { length block.now ≡ 128 }
    ensures { result ≡ schedule block.now 80 }
{
    let mut w = first_words(block);
    for t in 16..80 {
        w[t] = next_word(w[t - 2], w[t - 7], w[t - 15], w[t - 16]);
    }
    w
}
