// IEEE 754's square_root of binary64, rounded to nearest. A float estimate, of which nothing is
// proved, is the answer where one test over whole numbers says so; elsewhere the digits of the root
// are found one by one.
#![tactic(auto)]

ghost use Rattle.std.specs.Prelude.{◌≡◌, ◌+◌, ◌-◌, ◌*◌, ◌/◌, ◌%◌, ◌^◌, ◌<◌, ◌≤◌, T, from_bits, to_bits};
ghost use Rattle.std.specs.Float.{binary64};
ghost use Rattle.binary64.specs.Format.{precision, trailing, infinity_bits};
ghost use Rattle.binary64.specs.Operations as Spec;
ghost use Rattle.square_root.specs.Estimate as Estimate;
ghost use Rattle.binary64.specs.Nearest.{NearRoot, Scaled, Digits};

use binary64::{INFINITY_BITS, LEADING_BIT, SIGN_BIT};

// What a root's place has beyond half of its square's: (1074 - 2 * 52) / 2, since both count from 2 ^ -1074.
const ROOT_PLACE: u64 = 485;

// The digits of q * (q + 1) above 2^52, for q up to 2^53.
fn high_pronic(q: u64) -> u64
    requires { q ≤ 2 ^ precision }
    ensures { result ≡ q * (q + 1) / 2 ^ 52 }
{
    let low = binary64::low_product(q, q + 1);
    binary64::high_product(q, q + 1) * 4096 + (low >> 52)
}

// Whether r is the whole number nearest to the root of m * 2^52: r * (r + 1) exceeds m * 2^52 by less
// than 2 * r. The upper words say that one word holds the excess, and that r is below 2^54.
fn is_near_root(m: u64, r: u64) -> bool
    requires scaled { Scaled m }
    requires r_bound { r + 1 < 2 ^ 64 }
    ensures { result ≡ Estimate.is_near_root (m * 2 ^ 52) r }
{
    let (excess, borrow) = binary64::low_product(r, r + 1).overflowing_sub(m << 52);
    if binary64::high_product(r, r + 1) != m / 4096 + u64::from(borrow) {
        return false;
    }
    excess < 2 * r
}

// Whether c is the pattern of the root of a normal number's pattern b. c less the exponent of the root
// has the root's digits only if c has that exponent.
#[tactic(auto, using(crate::proofs::Test::below_exponent))]
fn is_root(b: u64, c: u64) -> bool
    requires { (2 ^ trailing ≤ b) × (b < infinity_bits) }
    ensures { result ≡ Estimate.is_root b c }
{
    let d = b / LEADING_BIT + binary64::BIAS;
    let k = (d / 2 - 1) * LEADING_BIT;
    if c < k {
        return false;
    }
    let m = (LEADING_BIT + b % LEADING_BIT) << (d % 2);
    is_near_root(m, c - k)
}

// Whether g is the root of the value of a normal number's pattern b.
#[tactic(auto, using(binary64::proofs::Pattern::self_equal), unfolding(crate::specs::Estimate::passes))]
fn passes(b: u64, g: f64) -> bool
    requires { (2 ^ trailing ≤ b) × (b < infinity_bits) }
    ensures value { result ≡ Estimate.passes b g }
    ensures g_value { T result → g ≡ Spec.sqrt (from_bits binary64 b) }
{
    if g != g {
        return false;
    }
    is_root(b, f64::to_bits(g))
}

// Nearly k / sqrt(x), for the x of the pattern b, where k is the cube root of 1/2: one of Newton's
// steps.
#[tactic(auto, using(binary64::proofs::Pattern::no_nan), unfolding(crate::specs::Estimate::inverse_root))]
fn inverse_root(b: u64) -> f64
    requires { b ≤ infinity_bits }
    ensures { result ≡ Estimate.inverse_root b }
{
    let h = f64::from_bits(b) * 0.39685026;
    let y = f64::from_bits(0x5fe6_eb50_c7b5_37a9 - b / 2);
    y * (1.1912483 - (h * y) * y)
}

// p, nearly the root of the pattern b's value, to 26 digits, whose square is exact. The sum's digits
// end there.
#[tactic(auto, using(binary64::proofs::Pattern::no_nan), unfolding(crate::specs::Estimate::leading_digits))]
fn leading_digits(b: u64, p: f64) -> f64
    requires { b ≤ infinity_bits }
    ensures { result ≡ Estimate.leading_digits b p }
{
    let t = f64::from_bits(b / 2 + 0x21a8_0000_0000_0000);
    (p + t) - t
}

// s moved by (x - s * s) / (2 * s), to the second order. y is nearly 1 / sqrt(x).
#[tactic(auto, unfolding(crate::specs::Estimate::corrected))]
fn corrected(x: f64, y: f64, s: f64) -> f64
    ensures { result ≡ Estimate.corrected x y s }
{
    let g = x - s * s;
    s + g / (s + s + g * (0.5 * y))
}

// Nearly the root of x, and nearly always the nearest float. The second of Newton's steps has no
// factor at x * y * y, because k is what it is.
#[tactic(auto, using(binary64::proofs::Pattern::no_nan), unfolding(crate::specs::Estimate::estimate))]
fn estimate(b: u64) -> f64
    requires { b ≤ infinity_bits }
    ensures { result ≡ Estimate.estimate b }
{
    let x = f64::from_bits(b);
    let y = inverse_root(b);
    let t = x * y;
    let q = 1.88988234 - t * y;
    corrected(x, y * q, leading_digits(b, t * q))
}

// The whole number nearest to the root of m * 2^52, for any m: it is from r on and below r + w, and
// each of 52 turns halves w, from 2^52 down to 1.
#[tactic(auto, using(crate::proofs::Halving::start))]
fn near_root(m: u64) -> u64
    requires { Scaled m }
    ensures digits { Digits result }
    ensures near_root { NearRoot (m * 2 ^ 52) result }
{
    let mut r = LEADING_BIT;
    let mut w = LEADING_BIT;
    for _ in 0..52usize {
        w = w / 2;
        if high_pronic(r + w - 1) < m {
            r = r + w;
        }
    }
    r
}

// The root of a pattern that is finite and above zero, as a pattern, digit by digit.
fn exact_root_bits(b: u64) -> u64
    requires { (0 < b) × (b < infinity_bits) }
    ensures upper_bound { result < infinity_bits }
    ensures value { result ≡ to_bits binary64 (Spec.sqrt (from_bits binary64 b)) }
{
    let t = binary64::significand(b);
    let z = binary64::shift(t);
    let d = binary64::exponent(b) + 52 - z;
    let r = near_root((t << z) << (d % 2));
    (d / 2 + ROOT_PLACE) * LEADING_BIT + r
}

// The root of x, digit by digit: a NaN for a NaN and for what is below zero, and x itself for a zero
// and for the positive infinity.
#[tactic(auto, using(binary64::proofs::Pattern::self_equal, binary64::proofs::Pattern::no_nan))]
fn exact_root(x: f64) -> f64
    ensures { result ≡ Spec.sqrt x }
{
    if x != x {
        return x;
    }
    let b = f64::to_bits(x);
    if b == 0 {
        return x;
    }
    if b < INFINITY_BITS {
        return f64::from_bits(exact_root_bits(b));
    }
    if b == INFINITY_BITS {
        return x;
    }
    if b == SIGN_BIT {
        return x;
    }
    0.0 / 0.0
}

// The root of x: the estimate for a normal number, if it passes the test.
#[tactic(auto, using(binary64::proofs::Pattern::self_equal))]
pub fn sqrt(x: f64) -> f64
    ensures { result ≡ Spec.sqrt x }
{
    if x != x {
        return x;
    }
    let b = f64::to_bits(x);
    if b >= LEADING_BIT {
        if b < INFINITY_BITS {
            let r = estimate(b);
            if passes(b, r) {
                return r;
            }
        }
    }
    exact_root(x)
}

// ---- many roots: the estimates in one loop without a branch, and then the tests

// The pattern of x without its sign, that of 1 for a NaN.
#[tactic(auto, using(binary64::proofs::Pattern::self_equal), unfolding(crate::specs::Estimate::magnitude_or_one))]
fn magnitude_or_one(x: f64) -> u64
    ensures value { result ≡ Estimate.magnitude_or_one x }
    ensures upper_bound { result ≤ infinity_bits }
{
    if x != x {
        return 0x3ff0_0000_0000_0000;
    }
    f64::to_bits(x) % SIGN_BIT
}

// Nearly the root of a normal number x, and some number for any other.
#[tactic(auto, unfolding(crate::specs::Estimate::root_estimate))]
pub fn root_estimate(x: f64) -> f64
    ensures { result ≡ Estimate.root_estimate x }
{
    estimate(magnitude_or_one(x))
}

// The root of x, whatever g is; sooner if g is the root of a normal number.
#[tactic(auto, using(binary64::proofs::Pattern::self_equal))]
pub fn checked(x: f64, g: f64) -> f64
    ensures { result ≡ Spec.sqrt x }
{
    if x != x {
        return x;
    }
    if g != g {
        return sqrt(x);
    }
    let b = f64::to_bits(x);
    if b >= LEADING_BIT {
        if b < INFINITY_BITS {
            if passes(b, g) {
                return g;
            }
        }
    }
    sqrt(x)
}
