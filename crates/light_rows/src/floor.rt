// A floor just above 0.
ghost use Rattle.std.specs.Prelude.{◌≡◌};
ghost use Rattle.light_rows.specs.Floor as Floor;

use float32::max;

// A NaN becomes the floor too.
#[tactic(auto, unfolding(crate::specs::Floor::floored, crate::specs::Floor::smallest))]
pub fn floored(x: f32) -> f32
    ensures { result ≡ Floor.floored x }
{
    max(x, 1e-6)
}
