// "Larger" of document 01.
ghost use Rattle.std.specs.Prelude.{◌≡◌};
ghost use Rattle.float32.specs.Larger.{larger};

// The larger of a and b. A NaN loses: the other operand is the answer. The library's `f32::max` leaves open which of two equal operands
// it answers, of which one may be -0.
#[tactic(auto, unfolding(crate::specs::Larger::larger))]
pub fn max(a: f32, b: f32) -> f32
    ensures { result ≡ larger a b }
{
    if a < b || a.is_nan() { b } else { a }
}
