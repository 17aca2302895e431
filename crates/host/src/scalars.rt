// The root and the cosine, float bits in and float bits out. A NaN is answered as 0x7FC00000.
ghost use Rattle.std.specs.Prelude.{◌≡◌};
ghost use Rattle.host.specs.Scalars.{ff_sqrt, ff_cos};

use float32::{bits_of, of_bits};

#[tactic(auto, unfolding(crate::specs::Scalars::ff_sqrt))]
pub fn ff_sqrt(x: u32) -> u32
    ensures { result ≡ ff_sqrt x }
{
    bits_of(float32::sqrt(of_bits(x)))
}

#[tactic(auto, unfolding(crate::specs::Scalars::ff_cos))]
pub fn ff_cos(x: u32) -> u32
    ensures { result ≡ ff_cos x }
{
    bits_of(float32::cos(of_bits(x)))
}
