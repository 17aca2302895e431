// The stand-in cosine of document 01, 'The arithmetic underneath': the angle is folded into a
// quarter turn, and a polynomial of degree eight taken there. Each step is one rounded operation.
ghost use Rattle.std.specs.Prelude.{◌≡◌};
ghost use Rattle.float32.specs.Cosine.{folded, polynomial, cos_of};

use crate::remainder::of_turn;

// The angle from 0 to half a turn with the cosine of y.
#[tactic(auto, unfolding(crate::specs::Cosine::folded, crate::specs::Cosine::turn, crate::specs::Cosine::half_turn))]
fn fold(y: f32) -> f32
    ensures { result ≡ folded y }
{
    let turn = f32::from_bits(0x40C9_0FDB);
    let r = of_turn(y);
    if r > f32::from_bits(0x4049_0FDB) {
        turn - r
    } else {
        r
    }
}

// The polynomial, innermost first.
fn series(t: f32) -> f32
    ensures { result ≡ polynomial t }
{
    let u = t * t;
    1.0 + u * (-1.0 / 2.0 + u * (1.0 / 24.0 + u * (-1.0 / 720.0 + u * (1.0 / 40320.0))))
}

#[tactic(auto, using(crate::proofs::cosine::Laws::cos_by_abs), unfolding(crate::specs::Cosine::cos_folded, crate::specs::Cosine::half_turn, crate::specs::Cosine::quarter_turn))]
pub fn cos(x: f32) -> f32
    ensures { result ≡ cos_of x }
{
    let r = fold(x.abs());
    if r > f32::from_bits(0x3FC9_0FDB) {
        return -series(f32::from_bits(0x4049_0FDB) - r);
    }
    series(r)
}
