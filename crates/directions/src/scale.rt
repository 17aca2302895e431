// Directions scaled by a power of two, so that their squares neither overflow nor vanish.
ghost use Rattle.std.specs.Prelude.{◌≡◌, ◌≤◌};
ghost use Rattle.directions.specs.Scale as Scale;
ghost use Rattle.directions.specs.Magnitude.{magnitude_bits, largest_bits, power_of_two};

use d3d9_types::D3DVECTOR;
use float32::bits_of;

// The bits of x without its sign. They grow with the magnitude, and an infinity's and a NaN's,
// from 0x7F800000 on, are above all others.
fn magnitude_bits(x: f32) -> u32
    ensures { result ≡ magnitude_bits x }
{
    bits_of(x) % 0x8000_0000
}

fn largest_bits(d: D3DVECTOR) -> u32
    ensures { result ≡ largest_bits d }
{
    magnitude_bits(d.x).max(magnitude_bits(d.y).max(magnitude_bits(d.z)))
}

// 2^(n - 127), of which the least is subnormal.
#[tactic(auto, using(crate::proofs::Power::power_bits), unfolding(crate::specs::Magnitude::power_of_two))]
fn power_of_two(n: u32) -> f32
    requires { n ≤ 254 }
    ensures { result ≡ power_of_two n }
{
    if n == 0 {
        return f32::from_bits(0x0040_0000);
    }
    f32::from_bits(n * 0x80_0000)
}

// d with its largest component brought to at least 1 and below 2, each component rounded once.
// A zero, an infinity or a NaN stays.
pub fn scaled(d: D3DVECTOR) -> D3DVECTOR
    ensures { result ≡ Scale.scaled d }
{
    let b = largest_bits(d);
    if b == 0 || 0x7F80_0000 <= b {
        return d;
    }
    if b < 0x80_0000 {
        // All are subnormal, and the power may be above 2^127: the first product is exact.
        let p = power_of_two(254);
        let q = power_of_two(118 + b.leading_zeros());
        return d.map(|c| c * p * q);
    }
    let p = power_of_two(254 - b / 0x80_0000);
    d.map(|c| c * p)
}
