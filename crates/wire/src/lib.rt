// Little-endian numbers of 2, 4 and 8 bytes, read from a slice at an offset and written into one, and
// the clearing of a lent buffer and copying into one.
//
// The contracts cite `specs/Number.antt`; the laws that a caller's proof needs are in `proofs/`.

#![tactic(auto)]

ghost use Rattle.std.specs.Prelude.{ℕ, ◌≡◌, ◌+◌, ◌*◌, ◌≤◌, length, take, drop, replicate};
ghost use Rattle.std.proofs.lemmas.List.Edits.{sets};
ghost use Rattle.wire.specs.Number.{le, number_at};

// A number that stands in `width` bytes of a slice, little-endian. The conversions are std's, and std has them on each
// type alone, so each `impl` names its own.
pub trait LittleEndian: Sized {
    ghost width: { ℕ };

    ghost value: { Self → ℕ };

    // The number that the bytes at `at` hold.
    fn number_at(bytes: &[u8], at: usize) -> Self
        requires { at + width ≤ length bytes.now }
        ensures { value result ≡ number_at width bytes.now at };

    // Writes the number at `at`. It takes the place, since `number_at`, which reads what it wrote, does.
    fn put_at(self, buffer: &mut [u8], at: usize)
        requires { at + width ≤ length buffer.old }
        ensures { buffer.new ≡ sets buffer.old at (le width (value self)) };
}

impl LittleEndian for u16 {
    ghost width = { 2 };

    ghost value = { λ n. n };

    #[tactic(auto, using(crate::proofs::Parts::read))]
    fn number_at(bytes: &[u8], at: usize) -> u16 {
        u16::from_le_bytes(part(bytes, at))
    }

    #[tactic(auto, using(crate::proofs::Digits::le_part))]
    fn put_at(self, buffer: &mut [u8], at: usize) {
        put(&mut buffer[at..at + 2], self as u64);
    }
}

impl LittleEndian for u32 {
    ghost width = { 4 };

    ghost value = { λ n. n };

    #[tactic(auto, using(crate::proofs::Parts::read))]
    fn number_at(bytes: &[u8], at: usize) -> u32 {
        u32::from_le_bytes(part(bytes, at))
    }

    #[tactic(auto, using(crate::proofs::Digits::le_part))]
    fn put_at(self, buffer: &mut [u8], at: usize) {
        put(&mut buffer[at..at + 4], self as u64);
    }
}

impl LittleEndian for u64 {
    ghost width = { 8 };

    ghost value = { λ n. n };

    #[tactic(auto, using(crate::proofs::Parts::read))]
    fn number_at(bytes: &[u8], at: usize) -> u64 {
        u64::from_le_bytes(part(bytes, at))
    }

    #[tactic(auto, using(crate::proofs::Digits::le_part))]
    fn put_at(self, buffer: &mut [u8], at: usize) {
        put(&mut buffer[at..at + 8], self);
    }
}

// The `N` bytes at `at`.
fn part<const N: usize>(bytes: &[u8], at: usize) -> [u8; N]
    requires { at + N ≤ length bytes.now }
    ensures { result ≡ take N (drop at bytes.now) }
{
    let mut part = [0; N];
    part.copy_from_slice(&bytes[at..at + N]);
    part
}

// Writes the low bytes of `value` over a part of a buffer, little-endian: as many as it has; from the ninth on they are 0.
#[tactic(auto, using(crate::proofs::Digits::put_steps))]
pub fn put(part: &mut [u8], value: u64)
    ensures { part.new ≡ le (length part.old) value }
{
    let mut rest = value;
    for byte in part {
        *byte = (rest % 256) as u8;
        rest /= 256;
    }
}

// Makes every byte of `buffer` 0, over its full length.
pub fn clear(buffer: &mut [u8])
    ensures { buffer.new ≡ replicate (length buffer.old) 0 }
{
    buffer.fill(0);
}

// Writes `bytes` into `buffer` from `at` on. It takes the place, and not the part, whose length is that of the bytes.
#[tactic(auto, using(crate::proofs::Sets::part_sets))]
pub fn copy(buffer: &mut [u8], at: usize, bytes: &[u8])
    requires { at + length bytes.now ≤ length buffer.old }
    ensures { buffer.new ≡ sets buffer.old at bytes.now }
{
    buffer[at..at + bytes.len()].copy_from_slice(bytes);
}
