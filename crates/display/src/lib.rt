// Document 01's display value: whole nanohenries, rounded once from the exact value, by CR 4 a half
// to the even one.
#![tactic(auto)]

ghost use Rattle.std.specs.Prelude.{◌≡◌, ◌*◌, ◌^◌, ◌≤◌, ◌<◌, pos};
ghost use Rattle.fused_integer.specs.Jam.{Jam};
ghost use Rattle.display.specs.Display as Spec;
ghost use Rattle.refusal.specs.Outcome.{number_of, value_or};
ghost use Rattle.display.specs.Display.{nano, largest, Displayed};

use refusal::Refusal;

const NANO: u64 = 1_000_000_000;

const LARGEST: u64 = 1_000_000_000_000_000;

// The bits of 2^20 H, above the largest, and of 2^-42 H, under half a nanohenry.
const TOO_LARGE: u64 = 0x4130_0000_0000_0000;

const TOO_SMALL: u64 = 0x3d50_0000_0000_0000;

// t × 10^9 has up to 83 digits: in units of 2^31, the last digit odd where anything is left below,
// so that a half stays apart from what is next to it.
fn in_units(t: u64) -> u64
    requires { t < 2 ^ 53 }
    ensures jam { Jam (t * nano) (2 ^ 31) result }
    ensures upper_bound { result < 2 ^ 63 }
{
    let low = t % 0x1_0000_0000 * NANO;
    let high = t / 0x1_0000_0000 * NANO + low / 0x1_0000_0000;
    if low % 0x1_0000_0000 == 0 {
        high * 2
    } else {
        high * 2 + 1
    }
}

// The size of t × 2^p / 2^1074 henries: one more than the quotient if its remainder is above a half,
// or a half and the quotient odd.
fn nanohenries(t: u64, p: u64) -> u64
    requires { (t < 2 ^ 53) × (980 ≤ p) × (p ≤ 1041) }
    ensures { result ≡ Spec.nanohenries (t * 2 ^ p) (2 ^ 1074) }
{
    let num = in_units(t);
    let den = 1u64 << (1043 - p);
    let q = num / den;
    if den < num % den * 2 + q % 2 {
        q + 1
    } else {
        q
    }
}

// A size with its sign.
fn with_sign(negative: bool, size: u64) -> i64
    requires { size ≤ largest }
    ensures { result ≡ Spec.with_sign negative size }
{
    if negative {
        -(size as i64)
    } else {
        size as i64
    }
}

// The display value of x.
pub fn display(x: f64) -> Result<i64, Refusal>
    ensures { Displayed x (number_of result) (value_or (pos 0) result) }
{
    if ieee754::is_nan(x) {
        return Err(Refusal::Display);
    }
    let b = f64::to_bits(ieee754::abs(x));
    if b >= TOO_LARGE {
        return Err(Refusal::Display);
    }
    if b < TOO_SMALL {
        return Ok(0);
    }
    let size = nanohenries(binary64::significand(b), binary64::exponent(b));
    if LARGEST < size {
        return Err(Refusal::Display);
    }
    Ok(with_sign(ieee754::is_sign_negative(x), size))
}
