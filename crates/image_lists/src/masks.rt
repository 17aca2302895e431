// The masks of types, made from the lights. A light's type is the number of C's record, any u32.
ghost use Rattle.std.specs.Prelude.{◌≡◌, ◌<◌, ◌^◌, ◌&&◌, ℕ, Bool};
ghost use Rattle.words.specs.Bits.{has_bit};
ghost use Rattle.image_lists.specs.Masks.{mask_of, set_mask, type_at, type_mask};

use d3d9_types::D3DLIGHT9;
use light_table::light_type_contributes;
use words::{has_bit, with_bit};

// A bit for each defined slot whose type passes.
fn mask<F: Fn(u32) -> bool>(passes: F, defined: u8, lights: [D3DLIGHT9; 8]) -> u8
    requires { F.IsAlwaysCallable passes }
    ensures { (p : ℕ → Bool) → ((n : ℕ) → (b : Bool) → n < 2 ^ 32 → F.post passes n b → b ≡ p n) → result ≡ mask_of 8 (λ i. has_bit defined i && p (type_at lights i)) }
{
    let mut mask = 0u8;
    for (i, light) in (0..8u32).zip(&lights) {
        let on = has_bit(defined, i) & passes(light.type_);
        mask = with_bit(mask, i, on);
    }
    mask
}

// A closure round the call: handed over by its name, a function of another crate got no proof.
pub fn set_mask(defined: u8, lights: [D3DLIGHT9; 8]) -> u8
    ensures { result ≡ set_mask defined lights }
{
    mask(|kind| light_type_contributes(kind), defined, lights)
}

pub fn type_mask(t: u32, defined: u8, lights: [D3DLIGHT9; 8]) -> u8
    ensures { result ≡ type_mask t defined lights }
{
    mask(|kind| kind == t, defined, lights)
}
