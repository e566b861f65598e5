// FIPS 180-4, section 6.4.2, steps 2 to 4: the eighty rounds on a block's words.
ghost use Rattle.std.specs.Prelude.{◌≡◌};
ghost use Rattle.sha384.specs.Hash.{T₁, T₂, round, rounds, added};

use crate::State;
use crate::constants::K;
use crate::words::{big_sigma0, big_sigma1, ch, maj};

fn first_sum(s: State, k: u64, w: u64) -> u64
    ensures { result ≡ T₁ s k w }
{
    s.h.wrapping_add(big_sigma1(s.e))
        .wrapping_add(ch(s.e, s.f, s.g))
        .wrapping_add(k)
        .wrapping_add(w)
}

fn second_sum(s: State) -> u64
    ensures { result ≡ T₂ s }
{
    big_sigma0(s.a).wrapping_add(maj(s.a, s.b, s.c))
}

// One round.
#[tactic(auto, unfolding(crate::specs::Hash::round))]
pub fn once(s: State, k: u64, w: u64) -> State
    ensures { result ≡ round s k w }
{
    let t1 = first_sum(s, k, w);
    let t2 = second_sum(s);
    State {
        a: t1.wrapping_add(t2),
        b: s.a,
        c: s.b,
        d: s.c,
        e: s.d.wrapping_add(t1),
        f: s.e,
        g: s.f,
        h: s.g,
    }
}

// All eighty rounds.
#[tactic(auto, unfolding(crate::specs::Hash::rounds))]
pub fn all(s: State, w: &[u64; 80]) -> State
    ensures { result ≡ rounds s w.now 80 }
{
    let mut v = s;
    for t in 0..80 {
        v = once(v, K[t], w[t]);
    }
    v
}

// The working variables added to the hash value before.
#[tactic(auto, unfolding(crate::specs::Hash::added))]
pub fn add(s: State, v: State) -> State
    ensures { result ≡ added s v }
{
    State {
        a: v.a.wrapping_add(s.a),
        b: v.b.wrapping_add(s.b),
        c: v.c.wrapping_add(s.c),
        d: v.d.wrapping_add(s.d),
        e: v.e.wrapping_add(s.e),
        f: v.f.wrapping_add(s.f),
        g: v.g.wrapping_add(s.g),
        h: v.h.wrapping_add(s.h),
    }
}
