// Bit patterns of an f32. `to_bits` and `from_bits` are undefined at a NaN, so the tests come first.
ghost use Rattle.std.specs.Prelude.{◌≡◌};
ghost use Rattle.std.specs.Float.Ieee as Ieee;
ghost use Rattle.std.specs.Float.{binary32};

// The bits of x, with 0x7FC00000 for a NaN.
#[tactic(auto, using(crate::proofs::Nan::nan_pattern))]
pub fn bits_of(x: f32) -> u32
    ensures { result ≡ Ieee.to_bits binary32 x }
{
    if x.is_nan() {
        return 0x7FC0_0000;
    }
    x.to_bits()
}

// The float with the bits n. Every NaN pattern is the one NaN.
#[tactic(auto, using(crate::proofs::Nan::above_is_nan))]
pub fn of_bits(n: u32) -> f32
    ensures { result ≡ Ieee.of_bits binary32 n }
{
    if 0x7F80_0000 < n % 0x8000_0000 {
        return f32::NAN;
    }
    f32::from_bits(n)
}
