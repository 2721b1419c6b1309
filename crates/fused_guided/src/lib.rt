// IEEE 754's fusedMultiplyAdd on f64 of numbers, guided by the hardware's sum with two roundings: that says where the exact
// sum's leading digit should be. Where it says wrong, or a value is out of reach, the integer form answers.
#![tactic(auto)]

ghost use Rattle.std.specs.Prelude.{◌≡◌, ◌+◌, ◌-◌, ◌*◌, ◌%◌, ◌^◌, ◌<◌, ◌≤◌, true, false, not, T, if◌then◌else◌, is_nan, is_some, IfSome};
ghost use Rattle.std.specs.Float.Ieee.Nearest.{closest};
ghost use Rattle.binary64.specs.Operations.{fma};
ghost use Rattle.fused_integer.specs.Jam.{Jam};
ghost use Rattle.fused_integer.specs.Words.{words};
ghost use Rattle.fused_guided.specs.Guided as Guided;

use binary64::{LEADING_BIT, QUANTUM_BIAS, TOP_FIELD};
use fused_integer::{Wide, minus_sign, product, signed, sticky};

// A field from here on and below there is far from those of the smallest and the largest values.
const CENTRAL_FROM: u64 = 768;

const CENTRAL_TO: u64 = 1280;

// A value with the field ex + ey - QUANTUM_BIAS has its last digit at the place of the last of a product of such
// fields; with these biases 64 places above it, and 55, where jam_product cuts.
const WORD_BIAS: u64 = 1011;

const CUT_BIAS: u64 = 1020;

// 2 ^ 51: a residual is what a significand has beyond it.
const HALF_FIELD: u64 = 0x8_0000_0000_0000;

// The exponent's field of a pattern.
pub fn field(b: u64) -> u64
    ensures { result ≡ Guided.field b }
{
    (b >> 52) % 2048
}

// The 53 digits of a pattern whose field is not 0.
pub fn normal_significand(b: u64) -> u64
    ensures { result ≡ Guided.normal_significand b }
{
    LEADING_BIT + b % LEADING_BIT
}

// Each bit turned over where c.
fn turn(c: bool, a: u64) -> u64
    ensures { result ≡ (if c then 2 ^ 64 - 1 - a else a) }
{
    if c { 0xffff_ffff_ffff_ffff - a } else { a }
}

// The sum of two words, with its carry.
fn carry_add(a: u64, b: u64) -> Wide
    ensures { (words result ≡ a + b) × ((result.lo < 2 ^ 64) × (result.hi ≤ 1)) }
{
    let (lo, carry) = a.overflowing_add(b);
    Wide {
        hi: u64::from(carry),
        lo,
    }
}

// ±p ± z in two's complement: the top bit is clear where that is not negative, and may be set where it is 0.
// Of a difference the larger is turned over before the sum and the sum after it.
fn signed_sum(cp: bool, p: Wide, cz: bool, z: Wide) -> Wide
    requires p_bound { p.hi < 2 ^ 62 }
    requires z_bound { z.hi < 2 ^ 62 }
    ensures { Guided.SignedWords cp (words p) cz (words z) result.hi result.lo }
{
    let a = carry_add(turn(cz, p.lo), turn(cp, z.lo));
    let h = carry_add(turn(cz, p.hi), turn(cp, z.hi));
    let g = carry_add(h.lo, a.hi);
    let c = cp != cz;
    Wide {
        hi: turn(c, g.lo),
        lo: turn(c, a.lo),
    }
}

// One word shifted up into two.
fn shift_word(w: u64, s: u64) -> Wide
    requires { s < 64 }
    ensures { words result ≡ w * 2 ^ s }
{
    Wide {
        hi: (w >> 1) >> (63 - s),
        lo: w << s,
    }
}

// Two words shifted up by 1 or more, where nothing leaves them.
fn shift_more(w: Wide, s: u64) -> Wide
    requires le_s { (1 ≤ s) × (s < 64) }
    requires hi_bound { w.hi < 2 ^ (64 - s) }
    ensures { (words result ≡ words w * 2 ^ s) × (result.lo < 2 ^ 64) }
{
    Wide {
        hi: (w.hi << s) | (w.lo >> (64 - s)),
        lo: w.lo << s,
    }
}

// The upper word and the lower one as a fraction of it, to the nearest whole number, a tie to the even one.
fn near_word(w: Wide) -> u64
    requires { w.hi < 2 ^ 53 }
    ensures { result ≡ closest (words w) (2 ^ 64) }
{
    if 0x8000_0000_0000_0000 - w.hi % 2 < w.lo {
        w.hi + 1
    } else {
        w.hi
    }
}

// ±u * v ± w * 2 ^ k, shifted up by s and rounded to a significand, exactly if the shifted sum has its leading
// digit at its place, 116: 53 digits, and 64 to be rounded off.
fn guided_sum(cp: bool, u: u64, v: u64, cz: bool, w: u64, k: u64, s: u64) -> Option<u64>
    requires u_bound { (u < 2 ^ 53) × (v < 2 ^ 53) }
    requires w_bound { (w < 2 ^ 53) × (k < 64) }
    requires le_s { (1 ≤ s) × (s < 63) }
    ensures { result ≡ Guided.significand (Guided.signed_sum cp (u * v) cz (w * 2 ^ k)) s }
{
    let p = product(u, v);
    let z = shift_word(w, k);
    let d = signed_sum(cp, p, cz, z);
    if (d.hi >> (64 - s)) != 0 {
        return None;
    }
    let x = shift_more(d, s);
    if (x.hi >> 52) != 1 {
        return None;
    }
    Some(near_word(x))
}

// A factor's field is far from those of the smallest and the largest values, so that no product of two such is
// near them either.
pub fn central(e: u64) -> bool
    ensures { result ≡ Guided.central e }
{
    (CENTRAL_FROM <= e) & (e < CENTRAL_TO)
}

fn usable(ex: u64, ey: u64, k: u64, s: u64) -> bool
    ensures { result ≡ Guided.usable ex ey k s }
{
    (central(ex) & central(ey)) & ((k < 64) & ((1 <= s) & (s < 63)))
}

// The bits of x * y + z, worked out with the sign and the exponent of t, which may be anything: where t's
// exponent is not the sum's, there is no answer.
fn guided_bits(bx: u64, by: u64, bz: u64, bt: u64) -> Option<u64>
    ensures given { is_some result ≡ Guided.guided bx by bz bt }
    ensures found { IfSome result (λ r. Guided.Found bx by bz r) }
{
    let ex = field(bx);
    let ey = field(by);
    let ez = field(bz);
    let et = field(bt);
    let k = std::num::wrapping_sub_u64(ez + QUANTUM_BIAS, ex + ey);
    let s = std::num::wrapping_sub_u64(ex + ey, et + WORD_BIAS);
    if !usable(ex, ey, k, s) {
        return None;
    }
    let nt = minus_sign(bt);
    let np = minus_sign(bx) != minus_sign(by);
    let nz = minus_sign(bz);
    let g = guided_sum(
        np != nt,
        normal_significand(bx),
        normal_significand(by),
        nz != nt,
        normal_significand(bz),
        k,
        s,
    )?;
    Some(signed(nt, (et - 1) * LEADING_BIT + g))
}

// ---- z far above the product

// (f - 2 ^ 51) * 2 ^ (e - 1) of the smallest values, or that with the other sign where `negative`.
pub fn residual_float(negative: bool, f: u64, e: u64) -> f64
    requires f_bound { f < 2 ^ 52 }
    requires le_e { (1 ≤ e) × (e < Guided.residual_top) }
    ensures { Guided.Residual negative result f e }
{
    let top = signed(negative, e * LEADING_BIT);
    f64::from_bits(top + f) - f64::from_bits(top + HALF_FIELD)
}

// z is so far above x * y that the product's 55 lowest digits are at least 9 places below z's last digit.
fn far_above(ex: u64, ey: u64, ez: u64) -> bool
    requires { (ex < 2048) × ((ey < 2048) × (ez < 2048)) }
    ensures { result ≡ Guided.far_above ex ey ez }
{
    (central(ex) & central(ey)) & ((ez < TOP_FIELD) & (ex + ey <= ez + WORD_BIAS))
}

// The digits of a product of two significands above its 55 lowest, with a sticky bit for those.
fn jam_product(w: Wide) -> u64
    requires { w.hi < 2 ^ 42 }
    ensures { (Jam (words w) (2 ^ 55) result) × (result < 2 ^ 51) }
{
    sticky(w.hi * 512 + (w.lo >> 55), w.lo % 0x80_0000_0000_0000)
}

// fma of numbers, without a guide. Where z is far above x * y it is the hardware's sum of z and the product
// rounded to odd: the sticky bit is so far below z that rounding the sum sees no difference.
fn unguided(x: f64, y: f64, z: f64) -> f64
    requires t { T (not (is_nan x)) }
    requires t_2 { T (not (is_nan y)) }
    requires t_3 { T (not (is_nan z)) }
    ensures { result ≡ fma x y z }
{
    let bx = f64::to_bits(x);
    let by = f64::to_bits(y);
    let ex = field(bx);
    let ey = field(by);
    let ez = field(f64::to_bits(z));
    if !far_above(ex, ey, ez) {
        return fused_integer::fused_numbers(x, y, z);
    }
    let p = product(normal_significand(bx), normal_significand(by));
    let f = jam_product(p);
    let n = minus_sign(bx) != minus_sign(by);
    z + residual_float(n, HALF_FIELD + f, ex + ey - CUT_BIAS)
}

// fma of numbers with the hardware's t = x * y + z as the guide: it says where the exact sum's leading digit should
// be, which saves the normalising shifts of the integer form.
pub fn guided(x: f64, y: f64, z: f64, t: f64) -> f64
    requires t { T (not (is_nan x)) }
    requires t_2 { T (not (is_nan y)) }
    requires t_3 { T (not (is_nan z)) }
    requires t_4 { T (not (is_nan t)) }
    ensures { result ≡ fma x y z }
{
    let found = guided_bits(
        f64::to_bits(x),
        f64::to_bits(y),
        f64::to_bits(z),
        f64::to_bits(t),
    );
    match found {
        Some(bits) => f64::from_bits(bits),
        None => unguided(x, y, z),
    }
}
