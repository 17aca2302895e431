// What is left of a float over a whole turn, T = 0xC90FDB · 2^-21, as C's fmod has it: exact, with the sign of
// the operand. In whole numbers, and not by `%`: this kit makes it a call of fmodf and links the one of glibc 2.38, so that a program with it
// does not start on a machine whose glibc is older.
ghost use Rattle.std.specs.Prelude.{◌≡◌, ◌*◌, ◌%◌, ◌^◌, ◌<◌, ◌≤◌};
ghost use Rattle.std.specs.Float.Ieee.{rem, round};
ghost use Rattle.std.specs.Float.{binary32};
ghost use Rattle.float32.specs.Cosine.{turn};

use crate::bits::bits_of;

// What is left of a significand moved up by k digits, over that of T.
fn moved_up(significand: u32, k: u32) -> u32
    requires { significand < 2 ^ 24 }
    ensures { result ≡ significand * 2 ^ k % 0xC9_0FDB }
{
    let mut r = significand % 0xC9_0FDB;
    for _ in 0..k {
        r = 2 * r % 0xC9_0FDB;
    }
    r
}

// r · 2^-21, with a sign.
fn moved_down(r: u32, negative: bool) -> f32
    requires { r < 2 ^ 24 }
    ensures { result ≡ round binary32 negative (r * 2 ^ 128) (2 ^ 149) }
{
    if negative {
        return r as f32 * f32::from_bits(0xB500_0000);
    }
    r as f32 * f32::from_bits(0x3500_0000)
}

// y % T. From the exponent field 129 on the last digit of y is that of T or a higher one; below it y is less than T.
pub fn of_turn(y: f32) -> f32
    ensures { result ≡ rem binary32 y turn }
{
    let b = bits_of(y);
    let x = b % 0x8000_0000 / 0x80_0000;
    if x == 255 {
        return f32::NAN;
    }
    if x < 129 {
        return y;
    }
    let r = moved_up(0x80_0000 + b % 0x80_0000, x - 129);
    moved_down(r, 0x8000_0000 <= b)
}
