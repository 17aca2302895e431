// Directions of length 1.
ghost use Rattle.std.specs.Prelude.{◌≡◌};
ghost use Rattle.directions.specs.Direction.{over_length, unit_direction};

use crate::scale::scaled;
use d3d9_types::D3DVECTOR;
use float32::sqrt;

// A length that is 0 or a NaN gives 0, 0, 0.
#[tactic(auto, using(matrix::proofs::Entries::minus_zero, d3d9_types::proofs::Literals::zero_is), unfolding(crate::specs::Direction::over_length, crate::specs::Direction::length_of, matrix::specs::Sum::sum_from))]
fn over_length(d: D3DVECTOR) -> D3DVECTOR
    ensures { result ≡ over_length d }
{
    let length = sqrt(-0.0 + d.x * d.x + d.y * d.y + d.z * d.z);
    if length > 0.0 {
        return d.map(|c| c / length);
    }
    D3DVECTOR::default()
}

// A direction of any finite length above 0: it is scaled first.
#[tactic(auto, unfolding(crate::specs::Direction::unit_direction))]
pub fn unit_direction(d: D3DVECTOR) -> D3DVECTOR
    ensures { result ≡ unit_direction d }
{
    over_length(scaled(d))
}
