// x * x + z rounded once, by float operations without a branch: a loop over arrays is laid out in lanes. The rounded sum
// s of the rounded square and z, and what both roundings left off, v, are nearly the exact sum; where s + v is
// rounded alike with a margin below and above, it is the answer.
#![tactic(auto)]

ghost use Rattle.std.specs.Prelude.{false, ◌≡◌, ◌≤◌};
ghost use Rattle.std.specs.Float.Ieee.{is_nan};
ghost use Rattle.binary64.specs.Format.{infinity_bits};
ghost use Rattle.binary64.specs.Operations.{fma};
ghost use Rattle.fused_lanes.specs.Lanes as Spec;

use ieee754::{not_a_number, select};

const TWO_TO_MINUS_400: f64 = 3.8725919148493183e-121;

const TWO_TO_MINUS_200: f64 = 6.223015277861142e-61;

const TWO_TO_MINUS_70: f64 = 8.470329472543003e-22;

const TWO_TO_200: f64 = 1.6069380442589903e60;

const TWO_TO_400: f64 = 2.5822498780869086e120;

// x, or 0 for a NaN, which has no pattern.
#[tactic(auto, using(crate::proofs::Laws::Pattern::equal_number), unfolding(crate::specs::Lanes::number))]
fn number(x: f64) -> f64
    ensures value { result ≡ Spec.number x }
    ensures result_value { is_nan result ≡ false }
{
    if x == x { x } else { 0.0 }
}

// The pattern of |x|.
#[tactic(auto, unfolding(crate::specs::Lanes::magnitude_or_zero))]
fn magnitude_or_zero(x: f64) -> u64
    ensures value { result ≡ Spec.magnitude_or_zero x }
    ensures upper_bound { result ≤ infinity_bits }
{
    f64::to_bits(number(x)) % binary64::SIGN_BIT
}

// The 26 leading digits: their square is exact.
#[tactic(auto, using(binary64::proofs::Pattern::no_nan), unfolding(crate::specs::Lanes::leading))]
fn leading(b: u64) -> f64
    requires { b ≤ infinity_bits }
    ensures { result ≡ Spec.leading b }
{
    f64::from_bits(b - b % 0x800_0000)
}

// Nearly a * a - q, for the rounded square q.
#[tactic(auto, unfolding(crate::specs::Lanes::square_residual))]
fn square_residual(a: f64, h: f64, q: f64) -> f64
    ensures { result ≡ Spec.square_residual a h q }
{
    (a - h) * (a + h) - (q - h * h)
}

// q + z - s, for the rounded sum s: the larger term is taken off first.
#[tactic(auto, unfolding(crate::specs::Lanes::sum_residual))]
fn sum_residual(q: f64, z: f64, s: f64) -> f64
    ensures { result ≡ Spec.sum_residual q z s }
{
    let below = z < q;
    select(below, z, q) - (s - select(below, q, z))
}

// s + v where the margin changes nothing, and else r.
#[tactic(auto, unfolding(crate::specs::Lanes::settled))]
fn settled(ok: bool, s: f64, v: f64, r: f64) -> f64
    ensures { result ≡ Spec.settled ok s v r }
{
    let u = s * TWO_TO_MINUS_70;
    let high = s + (v + u);
    select((high <= s + (v - u)) & ok, high, r)
}

// fma x x z, or NaN where the test does not settle it.
#[tactic(auto, using(binary64::proofs::Pattern::no_nan))]
pub fn square_add(x: f64, z: f64) -> f64
    ensures value { result ≡ Spec.square_add x z }
    ensures value_2 { is_nan result ≡ false → result ≡ fma x x z }
{
    let b = magnitude_or_zero(x);
    let a = f64::from_bits(b);
    let q = a * a;
    let s = q + z;
    let v = square_residual(a, leading(b), q) + sum_residual(q, z, s);
    let plain = (a >= TWO_TO_MINUS_200) & (a <= TWO_TO_200);
    let alone = select(plain & (z == 0.0), q, not_a_number());
    settled(
        plain & ((z >= TWO_TO_MINUS_400) & (z <= TWO_TO_400)),
        s,
        v,
        alone,
    )
}
