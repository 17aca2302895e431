// The square root, in the order of IEEE 754-2019 (5.4.1, squareRoot): special operands, the
// whole-number root with its remainder, rounding. Each of the three steps names its clause.
// The library's `f32::sqrt` promises a root of another definition, and shows neither the steps nor the remainder, which document 02 (T-06)
// asks for; document 01 states the root by the squares of whole numbers.
ghost use Rattle.std.specs.Prelude.{◌≡◌, ◌-◌, ◌*◌, ◌%◌, ◌^◌, ◌≤◌, ◌<◌};
ghost use Rattle.std.specs.Float.Ieee as Ieee;
ghost use Rattle.std.specs.Float.{binary32};
ghost use Rattle.float32.specs.Root.{floor_root, sqrt_of};
ghost use Rattle.float32.specs.Steps.{operand_of, InRange, FieldsOf, Exact, nearest_of, rounded_root};

use crate::bits::{bits_of, of_bits};
use std::ops::ControlFlow;

// What the second step finds: the operand is (root * root + remainder) * 4^exponent, in units of
// 2^-298.
#[derive(Clone, Copy)]
struct Root {
    root: u64,
    remainder: u64,
    exponent: u32,
}

pub fn sqrt(x: f32) -> f32
    ensures { result ≡ sqrt_of x }
{
    match special(x) {
        ControlFlow::Break(y) => y,
        ControlFlow::Continue(b) => rounded(root_with_remainder(b)),
    }
}

// Step 1, special operands: 6.1, 6.2.3, 6.3 and 7.2, each at its answer. One that is finite and above zero goes on, as its bits.
fn special(x: f32) -> ControlFlow<f32, u32>
    ensures { (result ≡ operand_of x) × (InRange result) }
{
    if x.is_nan() {
        return ControlFlow::Break(x); // 6.2.3: a NaN gives a NaN
    }
    let b = bits_of(x);
    if b % 0x8000_0000 == 0 {
        return ControlFlow::Break(x); // 6.3: the root of -0 is -0; that of +0 is +0
    }
    if 0x8000_0000 < b {
        return ControlFlow::Break(f32::NAN); // 7.2 g: below zero the operation is invalid
    }
    if b == 0x7F80_0000 {
        return ControlFlow::Break(x); // 6.1: the root of +infinity is +infinity
    }
    ControlFlow::Continue(b)
}

// Step 2, the whole-number root with its remainder. 5.1: the operation is performed as if to
// infinite precision, and the two numbers are exact. Half the even exponent that is left is the root's.
fn root_with_remainder(b: u32) -> Root
    requires { (0 < b) × (b < 0x7F80_0000) }
    ensures { Exact (Ieee.of_bits binary32 b) result }
{
    let f = fields_of(b);
    let n = with_even_exponent(f);
    let root = floor_root(n, guess(f));
    Root {
        root,
        remainder: n - root * root,
        exponent: (f.exponent - 23) / 2,
    }
}

// Step 3, rounding: 4.3.1, roundTiesToEven, to the nearest. A carry out of the significand goes into
// the exponent's field (3.4).
fn rounded(r: Root) -> f32
    requires { (2 ^ 23 ≤ r.root) × (r.root < 2 ^ 24) × (r.exponent ≤ 189) }
    ensures { result ≡ rounded_root r }
{
    of_bits(r.exponent * 0x80_0000 + nearest(r) as u32)
}

// The next number is nearer where the remainder exceeds the root. No tie occurs, since
// (root + 1/2)^2 is root^2 + root + 1/4, no whole number.
#[tactic(auto, unfolding(crate::specs::Steps::nearest_of))]
fn nearest(r: Root) -> u64
    requires { r.root < 2 ^ 24 }
    ensures { result ≡ nearest_of r }
{
    if r.remainder <= r.root {
        r.root
    } else {
        r.root + 1
    }
}

// ---- within step 2: the operand's fields, and a whole-number root

// A value above zero: significand * 2^exponent, in units of 2^-298.
#[derive(Clone, Copy)]
struct Fields {
    significand: u32,
    exponent: u32,
}

// 3.4: the fields of a binary32 value. A subnormal one's significand is moved up to 24 digits.
fn fields_of(b: u32) -> Fields
    requires { (0 < b) × (b < 0x7F80_0000) }
    ensures { FieldsOf (Ieee.of_bits binary32 b) result }
{
    let field = b / 0x80_0000;
    if field == 0 {
        let z = b.leading_zeros() - 8;
        return Fields {
            significand: b << z,
            exponent: 149 - z,
        };
    }
    Fields {
        significand: 0x80_0000 + b % 0x80_0000,
        exponent: field + 148,
    }
}

// The significand times 2^23 or 2^24, whichever leaves an even exponent: 47 or 48 digits.
fn with_even_exponent(f: Fields) -> u64
    requires { f.significand < 2 ^ 24 }
    ensures { result ≡ f.significand * 2 ^ (24 - f.exponent % 2) }
{
    u64::from(f.significand) * 0x80_0000 * u64::from(2 - f.exponent % 2)
}

// The largest r with r * r <= n. A guess g that is further off than one costs time alone.
fn floor_root(n: u64, g: u32) -> u64
    requires { n < 2 ^ 48 }
    ensures { result ≡ floor_root n }
{
    let r = not_above(n, u64::from(g));
    if r * r <= n && n - r * r <= 2 * r {
        r
    } else {
        n.isqrt()
    }
}

// g, or one less where its square is above n.
#[tactic(auto, using(crate::proofs::root::Squares::square_fits))]
fn not_above(n: u64, g: u64) -> u64
    requires { g < 2 ^ 32 }
    ensures { result < 2 ^ 32 }
{
    if n < g * g { g - 1 } else { g }
}

// ---- a guess by floats: `floor_root` tests what it is handed, so nothing but time rests on it

// 24 binary digits near the root of the number with an even exponent. t is the significand as a number
// from 1 up to 2 and p is near its root; what `heron` is handed is a quarter of that number, and 4
// parts in 10^11 more, so that a root that is whole is not missed.
fn guess(f: Fields) -> u32
    ensures { (2 ^ 23 ≤ result) × (result < 2 ^ 24) }
{
    let t = f64::from(f.significand) * 0.00000011920928955078125;
    let p = 0.369956 + t * (0.787923 + t * (0.0249374 * t - 0.182748));
    if f.exponent % 2 == 1 {
        return heron(t * 17592186045120.0, p * 4194304.0);
    }
    heron(t * 35184372090240.0, p * 5931641.6)
}

// The leading 24 binary digits of a number near twice the root of y, from a p near that root: p + y / p
// is twice a step of Heron's rule, and never below.
fn heron(y: f64, p: f64) -> u32
    ensures { (2 ^ 23 ≤ result) × (result < 2 ^ 24) }
{
    let u = p + y / p;
    if u.is_nan() {
        return 0x80_0000;
    }
    0x80_0000 + (u.to_bits() / 0x2000_0000 % 0x80_0000) as u32
}
