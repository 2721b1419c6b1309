// IEEE 754's fusedMultiplyAdd on f64 by whole numbers, for every input: the exact product and the addend in words of one
// unit, the smaller cut with a sticky bit, one rounding at the end.
#![tactic(auto)]

ghost use Rattle.std.specs.Prelude.{◌≡◌, ◌+◌, ◌-◌, ◌*◌, ◌/◌, ◌%◌, ◌^◌, ◌<◌, ◌≤◌, true, false, not, T, if◌then◌else◌, ◌≢◌, is_nan, nat_le, to_bits};
ghost use Rattle.std.specs.Float.{binary64};
ghost use Rattle.std.specs.Float.Ieee.{sum};
ghost use Rattle.std.specs.Float.Ieee.Nearest.{closest};
ghost use Rattle.binary64.specs.Operations.{fma};
ghost use Rattle.binary64.specs.Format.{trailing, lowest, magnitude_digits, largest_field, infinity_bits};
ghost use Rattle.binary64.specs.Nearest.{den};
ghost use Rattle.fused_integer.specs.Jam.{Jam};
ghost use Rattle.fused_integer.specs.Rounds.{rounds};
ghost use Rattle.binary64.specs.Pattern.{mag};
ghost use Rattle.fused_integer.specs.Words.{words};
ghost use Rattle.fused_integer.specs.Parts.{Normal, Placed, Narrow, Lifted, Finish, Ordered, Combined};

use binary64::{INFINITY_BITS, SIGN_BIT};

// The largest exponent's field of a finite value.
const LARGEST_FIELD: u64 = 2046;

// The exponent, in units of 2 ^ -2148, from which on a significand stands for a normal value: 1074 + 53.
const NORMAL_FROM: u64 = 1127;

// ---- words

// hi * 2 ^ 64 + lo
#[derive(Clone, Copy)]
pub struct Wide {
    pub hi: u64,
    pub lo: u64,
}

// A significand with its leading bit at place 63, and its exponent: sig * 2 ^ exp / 2 ^ 64, in a unit that its
// maker says.
#[derive(Clone, Copy)]
struct Part {
    sig: u64,
    exp: u64,
}

// wide * 2 ^ exp / 2 ^ 127, with the leading bit of `wide` at place 126.
#[derive(Clone, Copy)]
struct Scaled {
    wide: Wide,
    exp: u64,
}

// x, its last bit set where `rest` is not 0.
pub fn sticky(x: u64, rest: u64) -> u64
    ensures { (rest ≡ 0 → result ≡ x) × ((rest ≢ 0) → result ≡ x / 2 * 2 + 1) }
{
    if rest != 0 { x | 1 } else { x }
}

// The d low bits of x, at the top of a word.
#[tactic(auto, using(crate::proofs::Laws::Words::slide))]
fn low_bits(x: u64, d: u64) -> u64
    requires { d < 64 }
    ensures { result ≡ x % 2 ^ d * 2 ^ (64 - d) }
{
    (x << 1) << (63 - d)
}

// w over 2 ^ d, its last bit set where anything was cut off (SoftFloat's shift right and jam).
// `jam_near` is for a shift below a word, `jam_far` for one by a word and d more.
fn jam_near(w: Wide, d: u64) -> Wide
    requires { d < 64 }
    ensures { Jam (words w) (2 ^ d) (words result) }
{
    let m = low_bits(w.hi, d) | (w.lo >> d);
    Wide {
        hi: w.hi >> d,
        lo: sticky(m, low_bits(w.lo, d)),
    }
}

fn jam_far(w: Wide, d: u64) -> u64
    requires { d < 64 }
    ensures { Jam (words w) (2 ^ (64 + d)) result }
{
    sticky(w.hi >> d, low_bits(w.hi, d) | w.lo)
}

fn jam(w: Wide, d: u64) -> Wide
    requires { 0 < w.hi }
    ensures { Jam (words w) (2 ^ d) (words result) }
{
    if d < 64 {
        jam_near(w, d)
    } else if d < 128 {
        Wide {
            hi: 0,
            lo: jam_far(w, d - 64),
        }
    } else {
        Wide { hi: 0, lo: 1 }
    }
}

// m / 2 ^ 11 to the nearest whole number, a tie to the even one, on top of the exponent's field k.
#[tactic(auto, using(crate::proofs::Laws::Final::word_round))]
fn rounded(m: u64, k: u64) -> u64
    requires { k < largest_field }
    ensures { result ≡ k * 2 ^ trailing + closest m 2048 }
{
    let q = m >> 11;
    let up = (m % 2048 + 1023 + q % 2) / 2048;
    (k << 52) + (q + up)
}

// The bits of a significand and its exponent: rounded to 53 digits, or to fewer where the value is among the
// smallest, and an infinity where it is too large.
fn pack(sig: u64, exp: u64) -> u64
    requires { 2 ^ 63 ≤ sig }
    ensures { result ≡ rounds sig exp }
{
    if exp >= NORMAL_FROM {
        let k = exp - NORMAL_FROM;
        if k < LARGEST_FIELD {
            rounded(sig, k)
        } else {
            INFINITY_BITS
        }
    } else {
        let t = NORMAL_FROM - exp;
        if t < 64 {
            rounded(sticky(sig >> t, low_bits(sig, t)), 0)
        } else {
            0
        }
    }
}

pub fn product(u: u64, v: u64) -> Wide
    ensures { words result ≡ u * v }
{
    Wide {
        hi: binary64::high_product(u, v),
        lo: binary64::low_product(u, v),
    }
}

// The significand of a pattern without its sign, shifted up by its leading zero bits.
#[tactic(auto, using(binary64::proofs::Size::zeros_lt, crate::proofs::Laws::Shifts::unpack_low, crate::proofs::Laws::Shifts::unpack_high))]
fn unpack(a: u64) -> Part
    requires a_nonzero { 0 < a }
    requires a_lt_infinity_bits { a < infinity_bits }
    ensures { Normal result.sig result.exp (mag a) }
{
    let e = a >> 52;
    if e == 0 {
        let lz = u64::leading_zeros(a) as u64;
        Part {
            sig: a << lz,
            exp: 64 - lz,
        }
    } else {
        Part {
            sig: (a << 11) | 0x8000_0000_0000_0000,
            exp: e + 52,
        }
    }
}

// The two words shifted up by all of their leading zero bits but one, of which they have one or two.
#[tactic(auto, using(crate::proofs::Laws::Shifts::zeros_some, crate::proofs::Laws::Shifts::zeros_two))]
fn lift(w: Wide, g: u64) -> Scaled
    requires hi_bound { (w.hi < 2 ^ 63) × (2 ^ 125 ≤ words w) }
    requires le_g { 2 ≤ g }
    ensures { Lifted (words w) g (words result.wide) result.exp }
{
    let s = u64::leading_zeros(w.hi) as u64 - 1;
    Scaled {
        wide: Wide {
            hi: (w.hi << s) | ((w.lo >> 63) & s),
            lo: w.lo << s,
        },
        exp: g - s,
    }
}

// Sum and difference of two numbers of two words each.
fn add(a: Wide, b: Wide) -> Wide
    requires a_bound { a.hi < 2 ^ 63 }
    requires b_bound { b.hi < 2 ^ 63 }
    ensures { words result ≡ words a + words b }
{
    let (lo, carry) = a.lo.overflowing_add(b.lo);
    Wide {
        hi: a.hi + b.hi + u64::from(carry),
        lo,
    }
}

fn sub(a: Wide, b: Wide) -> Wide
    requires { words b ≤ words a }
    ensures { words result ≡ words a - words b }
{
    let (lo, borrow) = a.lo.overflowing_sub(b.lo);
    Wide {
        hi: a.hi - b.hi - u64::from(borrow),
        lo,
    }
}

// Two words as one with its leading bit at place 63, its last bit set where anything was cut off.
#[tactic(auto, using(binary64::proofs::Size::zeros_lt))]
fn narrow(w: Wide, g: u64) -> Part
    requires w_nonzero { 0 < words w }
    requires lowest_lt_g { lowest < g }
    requires g_bound { g ≤ 2 * magnitude_digits }
    ensures { Narrow (words w) g result.sig result.exp }
{
    if w.hi == 0 {
        let lz = u64::leading_zeros(w.lo) as u64;
        Part {
            sig: w.lo << lz,
            exp: g - 63 - lz,
        }
    } else {
        let lz = u64::leading_zeros(w.hi) as u64;
        let m = (w.hi << lz) | ((w.lo >> 1) >> (63 - lz));
        Part {
            sig: sticky(m, w.lo << lz),
            exp: g + 1 - lz,
        }
    }
}

// The bits of the rounded value of two words, 0 for 0.
#[tactic(auto, using(crate::proofs::Laws::Finishing::finish_law))]
fn finish(w: Wide, g: u64) -> u64
    requires lowest_lt_g { lowest < g }
    requires g_bound { g ≤ 2 * magnitude_digits }
    ensures { Finish (words w) g result }
{
    if (w.hi | w.lo) == 0 {
        0
    } else {
        let p = narrow(w, g);
        pack(p.sig, p.exp)
    }
}

// The exact product of two magnitudes, in units of 2 ^ -2148.
#[tactic(auto, using(crate::proofs::Laws::Combine::product_top, crate::proofs::Laws::Combine::product_lead, crate::proofs::Laws::Combine::high_small))]
fn multiply(ax: u64, ay: u64) -> Scaled
    requires ax_nonzero { (0 < ax) × (ax < infinity_bits) }
    requires ay_nonzero { (0 < ay) × (ay < infinity_bits) }
    ensures { Placed (words result.wide) result.exp (mag ax * mag ay) }
{
    let x = unpack(ax);
    let y = unpack(ay);
    let w = product(x.sig >> 1, y.sig);
    lift(w, x.exp + y.exp)
}

// A magnitude in the same units.
fn scale(az: u64) -> Scaled
    requires { (0 < az) × (az < infinity_bits) }
    ensures { (Placed (words result.wide) result.exp (mag az * 2 ^ lowest)) × (lowest < result.exp) }
{
    let z = unpack(az);
    Scaled {
        wide: Wide {
            hi: z.sig >> 1,
            lo: 0,
        },
        exp: z.exp + binary64::LOWEST,
    }
}

// The magnitude of the sum or the difference of two scaled numbers, the first no smaller.
#[tactic(auto, using(crate::proofs::Laws::Combine::high_pos, crate::proofs::Laws::Combine::high_small))]
fn combine(same: bool, a: Scaled, b: Scaled) -> u64
    requires { Ordered (words a.wide) a.exp (words b.wide) b.exp }
    ensures { Combined same (words a.wide) a.exp (words b.wide) b.exp result }
{
    let w = jam(b.wide, a.exp - b.exp);
    let total = if same { add(a.wide, w) } else { sub(a.wide, w) };
    finish(total, a.exp)
}

// Whether a is above b, of numbers with one leading place.
#[tactic(auto, using(crate::proofs::Laws::Larger::by_exp, crate::proofs::Laws::Larger::by_high, crate::proofs::Laws::Larger::by_low))]
fn larger(a: Scaled, b: Scaled) -> bool
    ensures { (result ≡ true → (b.exp ≤ a.exp) × (b.exp ≡ a.exp → words b.wide < words a.wide))
        × (result ≡ false → (a.exp ≤ b.exp) × (a.exp ≡ b.exp → words a.wide ≤ words b.wide)) }
{
    if a.exp != b.exp {
        a.exp > b.exp
    } else if a.wide.hi != b.wide.hi {
        a.wide.hi > b.wide.hi
    } else {
        a.wide.lo > b.wide.lo
    }
}

pub fn signed(negative: bool, m: u64) -> u64
    requires { m ≤ infinity_bits }
    ensures { result ≡ (if negative then 2 ^ 63 else 0) + m }
{
    if negative { SIGN_BIT + m } else { m }
}

// The bits of the sum of a product and a number, neither 0.
fn finite(np: bool, ax: u64, ay: u64, nz: bool, az: u64) -> u64
    requires ax_nonzero { (0 < ax) × (ax < infinity_bits) }
    requires ay_nonzero { (0 < ay) × (ay < infinity_bits) }
    requires az_nonzero { (0 < az) × (az < infinity_bits) }
    ensures { result ≡ to_bits binary64 (sum binary64 np (mag ax * mag ay) nz (mag az * 2 ^ lowest) den) }
{
    let p = multiply(ax, ay);
    let z = scale(az);
    let same = np == nz;
    if larger(z, p) {
        signed(nz, combine(same, z, p))
    } else if same {
        signed(np, combine(same, p, z))
    } else if larger(p, z) {
        signed(np, combine(same, p, z))
    } else {
        signed(false, 0)
    }
}

// A pattern without its sign, and the sign.
fn magnitude(b: u64) -> u64
    ensures { result ≡ b % 2 ^ 63 }
{
    b & 0x7fff_ffff_ffff_ffff
}

pub fn minus_sign(b: u64) -> bool
    ensures { result ≡ nat_le (2 ^ 63) b }
{
    b >= SIGN_BIT
}

// Neither 0 nor an infinity.
#[tactic(auto, using(crate::proofs::Laws::Larger::plain_zero, crate::proofs::Laws::Larger::plain_word))]
fn plain(a: u64) -> bool
    ensures { (result ≡ true → (0 < a) × (a < infinity_bits)) × (result ≡ false → (0 < a) → infinity_bits ≤ a) }
{
    if a == 0 { false } else { a < INFINITY_BITS }
}

// fma by whole numbers, where none of the three is a NaN. A product of a zero or an infinity is exact, and so is
// a sum of x * y with a zero.
#[tactic(auto, using(crate::proofs::Laws::Cases::sum_no_nan))]
pub fn fused_numbers(x: f64, y: f64, z: f64) -> f64
    requires t { T (not (is_nan x)) }
    requires t_2 { T (not (is_nan y)) }
    requires t_3 { T (not (is_nan z)) }
    ensures { result ≡ fma x y z }
{
    let bx = f64::to_bits(x);
    let by = f64::to_bits(y);
    let bz = f64::to_bits(z);
    let ax = magnitude(bx);
    let ay = magnitude(by);
    let az = magnitude(bz);
    if !plain(ax) {
        return x * y + z;
    }
    if !plain(ay) {
        return x * y + z;
    }
    if az == 0 {
        return x * y;
    }
    if az >= INFINITY_BITS {
        return z;
    }
    let np = minus_sign(bx) != minus_sign(by);
    f64::from_bits(finite(np, ax, ay, minus_sign(bz), az))
}

// fma by whole numbers, for every input.
#[tactic(auto, using(crate::proofs::Laws::Cases::nan_of, crate::proofs::Laws::Cases::nan_x, crate::proofs::Laws::Cases::nan_y, crate::proofs::Laws::Cases::nan_z, binary64::proofs::Pattern::self_equal))]
pub fn fused_integer(x: f64, y: f64, z: f64) -> f64
    ensures { result ≡ fma x y z }
{
    if x != x {
        return x * y + z;
    }
    if y != y {
        return x * y + z;
    }
    if z != z {
        return x * y + z;
    }
    fused_numbers(x, y, z)
}
