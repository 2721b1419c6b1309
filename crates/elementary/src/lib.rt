// Document 01, "Arithmetic under the physics": the stand-ins ln, asinh and atan2, in single rounded
// operations in the order written there.
#![tactic(auto)]

ghost use Rattle.std.specs.Prelude.{◌≡◌, ◌+◌, ◌-◌, ◌*◌, ◌≤◌, ◌<◌};
ghost use Rattle.std.proofs.Math.IntN.{sub_ℕ};
ghost use Rattle.std.specs.Float.{binary64};
ghost use Rattle.std.specs.Float.Ieee.{of_int, of_bits};
ghost use Rattle.elementary.specs.Elementary as Spec;

use ieee754::PI;

pub const LN_2: f64 = 0.6931471805599453;

pub const SQRT_2: f64 = 1.4142135623730951;

pub const C: f64 = 0.4142135623730951;

// 1/k for k = 45, 43 down to 1.
const RECIPROCALS: [f64; 23] = [
    1.0 / 45.0,
    1.0 / 43.0,
    1.0 / 41.0,
    1.0 / 39.0,
    1.0 / 37.0,
    1.0 / 35.0,
    1.0 / 33.0,
    1.0 / 31.0,
    1.0 / 29.0,
    1.0 / 27.0,
    1.0 / 25.0,
    1.0 / 23.0,
    1.0 / 21.0,
    1.0 / 19.0,
    1.0 / 17.0,
    1.0 / 15.0,
    1.0 / 13.0,
    1.0 / 11.0,
    1.0 / 9.0,
    1.0 / 7.0,
    1.0 / 5.0,
    1.0 / 3.0,
    1.0,
];

// P(z). The local copy of the table lets the compiler fold the coefficients.
fn horner_sum(z: f64) -> f64
    ensures { result ≡ Spec.P z }
{
    let c = RECIPROCALS;
    let mut p = c[11];
    for k in &c[12..] {
        p = *k + z * p;
    }
    p
}

// Q(z)
fn horner_difference(z: f64) -> f64
    ensures { result ≡ Spec.Q z }
{
    let c = RECIPROCALS;
    let mut p = c[0];
    for k in &c[1..] {
        p = *k - z * p;
    }
    p
}

// (t + t) × P(t × t)
#[tactic(auto, unfolding(crate::specs::Elementary::twice_artanh))]
pub fn twice_artanh(t: f64) -> f64
    ensures { result ≡ Spec.twice_artanh t }
{
    (t + t) * horner_sum(t * t)
}

// The whole number e - 1074 as a float: e has at most 12 digits, so both steps are exact.
#[tactic(auto, using(crate::proofs::Exponent::exponent_steps))]
fn float_exponent(e: u64) -> f64
    requires { e ≤ 2098 }
    ensures { result ≡ of_int binary64 (sub_ℕ e 1074) }
{
    (e as u32) as f64 - 1074.0
}

#[tactic(auto, unfolding(crate::specs::Elementary::ln_at))]
fn ln_at(m: f64, e: f64) -> f64
    ensures { result ≡ Spec.ln_at m e }
{
    let t = (m - 1.0) / (m + 1.0);
    e * LN_2 + twice_artanh(t)
}

// The logarithm of a pattern that is finite and above zero. Its digits, shifted up by their leading
// zero bits, are those of m; e + 1074 is their place.
#[tactic(auto, using(binary64::proofs::Pattern::no_nan))]
fn ln_of_bits(b: u64) -> f64
    requires { (0 < b) × (b < 0x7ff0_0000_0000_0000) }
    ensures { result ≡ Spec.ln_reduced (Spec.mantissa (of_bits binary64 b)) (Spec.exponent (of_bits binary64 b)) }
{
    let t = binary64::significand(b);
    let z = binary64::shift(t);
    let e = binary64::exponent(b) + 52 - z;
    let m = f64::from_bits((t << z) + 0x3fe0_0000_0000_0000);
    if m > SQRT_2 {
        return ln_at(m * 0.5, float_exponent(e + 1));
    }
    ln_at(m, float_exponent(e))
}

#[tactic(auto, using(ieee754::proofs::Signs::no_nan), unfolding(crate::specs::Elementary::ln))]
pub fn ln(x: f64) -> f64
    ensures { result ≡ Spec.ln x }
{
    if ieee754::is_nan(x) {
        return ieee754::not_a_number();
    }
    if x < 0.0 {
        return ieee754::not_a_number();
    }
    if x == 0.0 {
        return -ieee754::infinity();
    }
    let infinity = ieee754::infinity();
    if x == infinity {
        return infinity;
    }
    ln_of_bits(f64::to_bits(x))
}

// ln(1 + w), for w not below zero
#[tactic(auto, unfolding(crate::specs::Elementary::ln1p))]
fn ln_1p(w: f64) -> f64
    ensures { result ≡ Spec.ln1p w }
{
    if w <= C {
        return twice_artanh(w / (2.0 + w));
    }
    ln(1.0 + w)
}

#[tactic(auto, unfolding(crate::specs::Elementary::asinh_of_magnitude))]
fn asinh_of_magnitude(a: f64) -> f64
    ensures { result ≡ Spec.asinh_of_magnitude a }
{
    if a > 268435456.0 {
        return ln(a) + LN_2;
    }
    ln_1p(a + (a * a) / (1.0 + ieee754::sqrt(a * a + 1.0)))
}

#[tactic(auto, unfolding(crate::specs::Elementary::asinh))]
pub fn asinh(x: f64) -> f64
    ensures { result ≡ Spec.asinh x }
{
    if x == 0.0 {
        return x;
    }
    if ieee754::is_nan(x) {
        return x;
    }
    let a = ieee754::abs(x);
    if a == ieee754::infinity() {
        return x;
    }
    ieee754::signed(ieee754::is_sign_negative(x), asinh_of_magnitude(a))
}

// The smaller of two sizes over the larger.
#[tactic(auto, unfolding(crate::specs::Elementary::ratio))]
fn ratio(a: f64, b: f64) -> f64
    ensures { result ≡ Spec.ratio a b }
{
    if (a == 0.0) & (b == 0.0) {
        return 0.0;
    }
    let infinity = ieee754::infinity();
    if (a == infinity) & (b == infinity) {
        return 1.0;
    }
    if a > b { b / a } else { a / b }
}

#[tactic(auto, unfolding(crate::specs::Elementary::atan_at))]
pub fn atan_at(b: f64, u: f64) -> f64
    ensures { result ≡ Spec.atan_at b u }
{
    b + u * horner_difference(u * u)
}

// The arc tangent, for q from 0 to 1.
#[tactic(auto, unfolding(crate::specs::Elementary::atan))]
fn atan(q: f64) -> f64
    ensures { result ≡ Spec.atan q }
{
    if q > C {
        return atan_at(PI / 4.0, (q - 1.0) / (q + 1.0));
    }
    atan_at(0.0, q)
}

// The angle of (b, a), neither below zero.
#[tactic(auto, unfolding(crate::specs::Elementary::first_quadrant))]
fn first_quadrant(a: f64, b: f64) -> f64
    ensures { result ≡ Spec.first_quadrant a b }
{
    let r = atan(ratio(a, b));
    if a > b { PI / 2.0 - r } else { r }
}

// π - r where s.
#[tactic(auto, unfolding(crate::specs::Elementary::supplement))]
pub fn supplement(s: bool, r: f64) -> f64
    ensures { result ≡ Spec.supplement s r }
{
    if s { PI - r } else { r }
}

#[tactic(auto, unfolding(crate::specs::Elementary::atan2))]
pub fn atan2(y: f64, x: f64) -> f64
    ensures { result ≡ Spec.atan2 y x }
{
    if ieee754::is_nan(y) | ieee754::is_nan(x) {
        return ieee754::not_a_number();
    }
    let r = first_quadrant(ieee754::abs(y), ieee754::abs(x));
    let s = supplement(ieee754::is_sign_negative(x), r);
    ieee754::signed(ieee754::is_sign_negative(y), s)
}
