// Floats by their bits. Every NaN pattern reads as the NaN, which is written 0x7FC00000.
ghost use Rattle.codec.specs.Float.{float_at, float_bytes};
ghost use Rattle.codec.specs.Sizes.{length-float_bytes};

use crate::storage::Stored;

impl Stored for f32 {
    const SIZE: usize = 4;

    ghost SIZE = { 4 };

    ghost bytes = { float_bytes };

    ghost at = { float_at };

    ghost wide = { length-float_bytes };

    #[tactic(auto, unfolding(crate::specs::Float::float_at))]
    fn read(s: &[u8], from: usize) -> f32 {
        float32::of_bits(u32::read(s, from))
    }

    #[tactic(auto, unfolding(crate::specs::Float::float_bytes))]
    fn put(self, dst: &mut [u8], from: usize) {
        float32::bits_of(self).put(dst, from);
    }
}
