// One bit of a mask. That i is below 8 stands in each contract: a type for it would be made at each call and taken apart again at each
// shift and each array.
ghost use Rattle.std.specs.Prelude.{◌≡◌, ◌<◌};
ghost use Rattle.words.specs.Bits.{has_bit, with_bit};

#[tactic(auto, unfolding(crate::specs::Bits::has_bit))]
pub fn has_bit(mask: u8, i: u32) -> bool
    requires { i < 8 }
    ensures { result ≡ has_bit mask i }
{
    (mask >> i) % 2 == 1
}

// The mask with bit i as `on` says.
pub fn with_bit(mask: u8, i: u32, on: bool) -> u8
    requires { i < 8 }
    ensures { result ≡ with_bit mask i on }
{
    let bit = 1u8 << i;
    if on { mask | bit } else { mask & !bit }
}
