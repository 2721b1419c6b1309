// asinh of fourteen numbers at once and atan2 of seven pairs, in loops over arrays without a branch, which the compiler
// lays out in lanes. A lane of asinh reads significand and exponent off the pattern of 1 + w. A lane gives NaN where it
// does not hold, and then the function of one number answers.
#![tactic(auto)]

ghost use Rattle.std.specs.Prelude.{cond, false, ◌≡◌, ℕ, ◌≤◌, ◌<◌};
ghost use Rattle.std.specs.List.{list_any};
ghost use Rattle.std.proofs.Math.IntN.{sub_ℕ};
ghost use Rattle.std.specs.Float.{binary64};
ghost use Rattle.std.specs.Float.Ieee.{of_int, is_nan, lt};
ghost use Rattle.binary64.specs.Binary64.{at, ◌⊘◌};
ghost use Rattle.lists.specs.Filling.{Each};
ghost use Rattle.elementary.specs.Elementary as Spec;
ghost use Rattle.elementary_lanes.specs.Lanes as Lanes;

use elementary::{C, LN_2, SQRT_2, asinh, atan_at, atan2, supplement, twice_artanh};
use ieee754::{PI, select};

// The smallest normal number.
const MIN_POSITIVE: f64 = 2.2250738585072014e-308;

const TWO_TO_1023: f64 = 8.98846567431158e307;

// |x|, for x other than zero and NaN.
#[tactic(auto, unfolding(crate::specs::Lanes::magnitude))]
fn magnitude(x: f64) -> f64
    ensures { result ≡ Lanes.magnitude x }
{
    select(x < 0.0, -x, x)
}

#[tactic(auto, unfolding(crate::specs::Lanes::radicand))]
fn radicand(x: f64) -> f64
    ensures { result ≡ Lanes.radicand x }
{
    let a = magnitude(x);
    a * a + 1.0
}

// w from the root q of the radicand.
#[tactic(auto, unfolding(crate::specs::Lanes::excess))]
fn excess(x: f64, q: f64) -> f64
    ensures { result ≡ Lanes.excess x q }
{
    let a = magnitude(x);
    let w = a + (a * a) / (1.0 + q);
    select(
        (a >= MIN_POSITIVE) & (a <= 268435456.0),
        w,
        ieee754::not_a_number(),
    )
}

// y, or 1 where y is less or NaN.
#[tactic(auto, using(crate::proofs::Normal::reached_number), unfolding(crate::specs::Lanes::from_one))]
fn from_one(y: f64) -> f64
    ensures value { result ≡ Lanes.from_one y }
    ensures result_value { is_nan result ≡ false }
{
    if y >= 1.0 { y } else { 1.0 }
}

// m of a normal number's pattern.
#[tactic(auto, using(binary64::proofs::Pattern::no_nan), unfolding(crate::specs::Lanes::mantissa_of_bits))]
fn mantissa_of_bits(b: u64) -> f64
    ensures { result ≡ Lanes.mantissa_of_bits b }
{
    f64::from_bits(b % 0x10_0000_0000_0000 + 0x3ff0_0000_0000_0000)
}

// e of a normal number's exponent field, one more where m is halved.
#[tactic(auto, using(elementary::proofs::Exponent::field_steps))]
fn float_exponent(field: u64, halved: bool) -> f64
    requires { field ≤ 4095 }
    ensures { result ≡ of_int binary64 (sub_ℕ field (cond halved 1022 1023)) }
{
    (field as u32) as f64 - select(halved, 1022.0, 1023.0)
}

// ln(1 + w): the two quotients t of the definition are one division.
#[tactic(auto, using(ieee754::proofs::Signs::no_nan, crate::proofs::Normal::one_division, crate::proofs::Normal::pattern_lt), unfolding(crate::specs::Lanes::ln1p, crate::specs::Lanes::ln_fields, elementary::specs::Elementary::ln_reduced))]
fn ln_1p(w: f64) -> f64
    ensures { result ≡ Lanes.ln1p w }
{
    let y = 1.0 + w;
    let b = f64::to_bits(from_one(y));
    let m0 = mantissa_of_bits(b);
    let halved = m0 > SQRT_2;
    let m = select(halved, m0 * 0.5, m0);
    let e = float_exponent(b / 0x10_0000_0000_0000, halved);
    let small = w <= C;
    let n = select(small, w, m - 1.0);
    let d = select(small, 2.0 + w, m + 1.0);
    let s = twice_artanh(n / d);
    let r = select(small, s, e * LN_2 + s);
    select((y >= 1.0) & (y <= 2147483648.0), r, ieee754::not_a_number())
}

// asinh x, or NaN.
#[tactic(auto, unfolding(crate::specs::Lanes::lane))]
fn lane(x: f64, w: f64) -> f64
    ensures { result ≡ Lanes.lane x w }
{
    let r = ln_1p(w);
    select(x < 0.0, -r, r)
}

fn chosen(x: f64, r: f64) -> f64
    ensures { result ≡ cond (is_nan r) (Spec.asinh x) r }
{
    if ieee754::is_nan(r) { asinh(x) } else { r }
}

// f(0), f(1) and so on. The compiler makes a loop of its own for each f, and lays it out in lanes where f has no branch.
#[tactic(auto, using(crate::proofs::Made::made_next, crate::proofs::Made::made_all))]
fn each<const N: usize, F: Fn(usize) -> f64>(f: F) -> [f64; N]
    requires { (i : ℕ) → i < N → F.pre f i }
    ensures { (i : ℕ) → i < N → F.post f i (at result i) }
{
    let mut out = [0.0; N];
    for i in 0..N {
        out[i] = f(i);
    }
    out
}

pub fn asinhs(x: [f64; 14]) -> [f64; 14]
    ensures { (i : ℕ) → i < 14 → at result i ≡ Spec.asinh (at x i) }
{
    let s: [f64; 14] = each(|i| radicand(x[i]));
    let g: [f64; 14] = each(|i| square_root::root_estimate(s[i]));
    let q: [f64; 14] = each(|i| square_root::checked(s[i], g[i]));
    let w: [f64; 14] = each(|i| excess(x[i], q[i]));
    let r: [f64; 14] = each(|i| lane(x[i], w[i]));
    each(|i| chosen(x[i], r[i]))
}

// ---- atan2

// The smaller of two sizes over the larger.
#[tactic(auto, using(crate::proofs::Arctangent::one_quotient))]
fn ratio(a: f64, b: f64) -> f64
    ensures { result ≡ cond (lt b a) (b ⊘ a) (a ⊘ b) }
{
    let steep = a > b;
    select(steep, b, a) / select(steep, a, b)
}

#[tactic(auto, using(crate::proofs::Arctangent::one_angle), unfolding(elementary::specs::Elementary::atan))]
fn atan(q: f64) -> f64
    ensures { result ≡ Spec.atan q }
{
    let high = q > C;
    let u = select(high, (q - 1.0) / (q + 1.0), q);
    atan_at(select(high, PI / 4.0, 0.0), u)
}

#[tactic(auto, unfolding(crate::specs::Lanes::first_quadrant))]
fn first_quadrant(a: f64, b: f64) -> f64
    ensures { result ≡ Lanes.first_quadrant a b }
{
    let r = atan(ratio(a, b));
    select(a > b, PI / 2.0 - r, r)
}

// atan2(y, x), or NaN.
#[tactic(auto, unfolding(crate::specs::Lanes::angle))]
fn angle(y: f64, x: f64) -> f64
    ensures { result ≡ Lanes.angle y x }
{
    let a = magnitude(y);
    let b = magnitude(x);
    let r = supplement(x < 0.0, first_quadrant(a, b));
    let s = select(y < 0.0, -r, r);
    let holds = (a >= MIN_POSITIVE) & (a <= TWO_TO_1023) & (b >= MIN_POSITIVE) & (b <= TWO_TO_1023);
    select(holds, s, ieee754::not_a_number())
}

// Seven numbers and one more: the compiler lays out lanes in pairs.
fn padded(x: [f64; 7]) -> [f64; 8]
    ensures { Each 7 (λ i. at x i) result }
{
    let mut out = [1.0; 8];
    out[..7].copy_from_slice(&x);
    out
}

fn has_nan(r: &[f64]) -> bool
    ensures { result ≡ list_any is_nan r.now }
{
    r.iter().any(|x| ieee754::is_nan(*x))
}

pub fn atan2s(y: [f64; 7], x: [f64; 7]) -> [f64; 7]
    ensures { (i : ℕ) → i < 7 → at result i ≡ Spec.atan2 (at y i) (at x i) }
{
    let a = padded(y);
    let b = padded(x);
    let r: [f64; 8] = each(|i| angle(a[i], b[i]));
    if has_nan(&r[..7]) {
        return each(|i| atan2(y[i], x[i]));
    }
    each(|i| r[i])
}
