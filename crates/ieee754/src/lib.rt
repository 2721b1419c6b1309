// IEEE 754's operations on f64 by document 01's words, each for every input.
#![tactic(auto)]

ghost use Rattle.std.specs.Prelude.{◌≡◌, false, if◌then◌else◌, is_nan};
ghost use Rattle.std.specs.Float.{nan, inf};
ghost use Rattle.ieee754.specs.Ieee754 as Spec;

// core::f64::consts::PI
pub const PI: f64 = 3.141592653589793;

// a * b + c, rounded once: the Rust's a.mul_add(b, c). The library's takes 1.4 times as long.
pub fn mul_add(a: f64, b: f64, c: f64) -> f64
    ensures { result ≡ Spec.fma a b c }
{
    fused_multiply_add::mul_add(a, b, c)
}

// a * a + c, rounded once: mul_add(a, a, c) by a shorter way.
pub fn square_add(a: f64, c: f64) -> f64
    ensures { result ≡ Spec.fma a a c }
{
    fused_multiply_add::square_add(a, c)
}

pub fn sqrt(x: f64) -> f64
    ensures { result ≡ Spec.sqrt x }
{
    square_root::sqrt(x)
}

pub fn infinity() -> f64
    ensures { result ≡ inf false }
{
    f64::INFINITY
}

pub fn not_a_number() -> f64
    ensures { result ≡ nan }
{
    f64::NAN
}

// Both values are at hand: in a loop over arrays this is no branch.
pub fn select(c: bool, a: f64, b: f64) -> f64
    ensures { result ≡ (if c then a else b) }
{
    if c { a } else { b }
}

pub fn is_nan(x: f64) -> bool
    ensures { result ≡ is_nan x }
{
    x.is_nan()
}

// Neither NaN nor infinite.
pub fn is_finite(x: f64) -> bool
    ensures { result ≡ Spec.is_finite x }
{
    x.is_finite()
}

// The library's min and max leave open which of two equal numbers they give, as 0 and -0.
#[tactic(auto, unfolding(crate::specs::Ieee754::min))]
pub fn min(a: f64, b: f64) -> f64
    ensures { result ≡ Spec.min a b }
{
    if is_nan(a) {
        return b;
    }
    if b < a { b } else { a }
}

#[tactic(auto, unfolding(crate::specs::Ieee754::max))]
pub fn max(a: f64, b: f64) -> f64
    ensures { result ≡ Spec.max a b }
{
    if is_nan(a) {
        return b;
    }
    if a < b { b } else { a }
}

// The library's clamp asks that lo is no larger than hi.
#[tactic(auto, unfolding(crate::specs::Ieee754::clamp))]
pub fn clamp(x: f64, lo: f64, hi: f64) -> f64
    ensures { result ≡ Spec.clamp x lo hi }
{
    if x < lo {
        lo
    } else if x > hi {
        hi
    } else {
        x
    }
}

// The library's asks that x is no NaN.
#[tactic(auto, using(crate::proofs::Signs::nan_sign))]
pub fn is_sign_negative(x: f64) -> bool
    ensures { result ≡ Spec.sign_bit x }
{
    if is_nan(x) {
        return false;
    }
    x.is_sign_negative()
}

// r with its sign turned where s.
#[tactic(auto, unfolding(crate::specs::Ieee754::signed))]
pub fn signed(s: bool, r: f64) -> f64
    ensures { result ≡ Spec.signed s r }
{
    if s { -r } else { r }
}

// The library's abs has two branches more: atan2 takes 9 per cent longer with it.
#[tactic(auto, using(crate::proofs::Signs::size_is))]
pub fn abs(x: f64) -> f64
    ensures { result ≡ Spec.abs x }
{
    signed(is_sign_negative(x), x)
}

// A number's bits, any NaN as one.
#[tactic(auto, using(crate::proofs::Signs::no_nan), unfolding(crate::specs::Ieee754::canonical_bits))]
pub fn canonical_bits(x: f64) -> u64
    ensures { result ≡ Spec.canonical_bits x }
{
    if is_nan(x) {
        return 0x7ff8_0000_0000_0000;
    }
    f64::to_bits(x)
}
