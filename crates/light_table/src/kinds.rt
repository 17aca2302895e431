// Which types of light contribute. A type is a number here and wherever a light's is handed on: C's record holds any u32.
ghost use Rattle.std.specs.Prelude.{◌≡◌};
ghost use Rattle.light_table.specs.Kinds.{contributes};

use d3d9_types::{D3DLIGHT_DIRECTIONAL, D3DLIGHT_POINT};

// Whether a light of this type lights anything.
#[tactic(auto, unfolding(crate::specs::Kinds::contributes))]
pub fn light_type_contributes(type_: u32) -> bool
    ensures { result ≡ contributes type_ }
{
    matches!(type_, D3DLIGHT_POINT..=D3DLIGHT_DIRECTIONAL)
}
