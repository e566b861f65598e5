// FIPS 180-4, section 4.1.3: the six functions on words. They stand one by one, as FIPS and the definitions `Σ₀`, `Σ₁`, `σ₀` and `σ₁` of
// `specs/Words.antt` name them: four that differ in their constants alone are no plainer as one with three parameters.
ghost use Rattle.std.specs.Prelude.{◌≡◌};
ghost use Rattle.sha384.specs.Words.{Ch, Maj, Σ₀, Σ₁, σ₀, σ₁};

pub fn ch(x: u64, y: u64, z: u64) -> u64
    ensures { result ≡ Ch x y z }
{
    (x & y) ^ (!x & z)
}

pub fn maj(x: u64, y: u64, z: u64) -> u64
    ensures { result ≡ Maj x y z }
{
    (x & y) ^ (x & z) ^ (y & z)
}

pub fn big_sigma0(x: u64) -> u64
    ensures { result ≡ Σ₀ x }
{
    x.rotate_right(28) ^ x.rotate_right(34) ^ x.rotate_right(39)
}

pub fn big_sigma1(x: u64) -> u64
    ensures { result ≡ Σ₁ x }
{
    x.rotate_right(14) ^ x.rotate_right(18) ^ x.rotate_right(41)
}

pub fn small_sigma0(x: u64) -> u64
    ensures { result ≡ σ₀ x }
{
    x.rotate_right(1) ^ x.rotate_right(8) ^ (x >> 7)
}

pub fn small_sigma1(x: u64) -> u64
    ensures { result ≡ σ₁ x }
{
    x.rotate_right(19) ^ x.rotate_right(61) ^ (x >> 6)
}
