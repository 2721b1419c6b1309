// IEEE 754's fusedMultiplyAdd on f64: x * y + z, rounded once, for every input. `mul_add` and `square_add` answer by three
// roundings of the hardware, the third of them of the exact residual; where their tests fail the guided and the integer form do.
#![tactic(auto)]

ghost use Rattle.std.specs.Prelude.{◌≡◌, ◌+◌, ◌*◌, ◌%◌, ◌^◌, ◌<◌, if◌then◌else◌};
ghost use Rattle.binary64.specs.Operations.{fma};
ghost use Rattle.fused_integer.specs.Jam.{Jam};
ghost use Rattle.fused_multiply_add.specs.Residual as Residual;

use binary64::QUANTUM_BIAS;
use fused_guided::{central, field, guided, normal_significand, residual_float};
use fused_integer::{minus_sign, sticky};

// A value with the field ex + ey - RESIDUAL_BIAS has its last digit 12 places above the last of the product, where the
// residual is cut.
const RESIDUAL_BIAS: u64 = 1063;

// What t's last digit stands at least above the last of the product.
const LEAST_PLACE: u64 = 15;

// z is a zero that changes nothing of the rounded product p. Where p is a zero too, the exact product's sign
// decides.
#[tactic(auto, unfolding(crate::specs::Residual::lone_product))]
fn lone_product(p: f64, z: f64) -> bool
    ensures { result ≡ Residual.lone_product p z }
{
    (z == 0.0) & (p != 0.0)
}

// -a as a word where c, else a.
fn negate(c: bool, a: u64) -> u64
    ensures { (result + (if c then a else 0)) % 2 ^ 64 ≡ (if c then 0 else a) }
{
    if c {
        std::num::wrapping_sub_u64(0, a)
    } else {
        a
    }
}

// The exact residual of ±u * v ± w * 2 ^ k over c * 2 ^ m, and 2 ^ 63: one word, since the residual is small.
// The eight stay numbers: a struct of each term would be made and read here alone.
#[tactic(auto, using(crate::proofs::Laws::Residual::residual_law))]
fn residual_word(cp: bool, u: u64, v: u64, cz: bool, w: u64, k: u64, c: u64, m: u64) -> u64
    requires k_bound { (k < 64) × (m < 64) }
    requires fits { Residual.Fits cp (u * v) cz (w * 2 ^ k) (c * 2 ^ m) }
    ensures { result + Residual.taken cp (u * v) cz (w * 2 ^ k) (c * 2 ^ m)
        ≡ Residual.added cp (u * v) cz (w * 2 ^ k) + 2 ^ 63 }
{
    let p = negate(cp, binary64::low_product(u, v));
    let z = negate(cz, w << k);
    let d = std::num::wrapping_sub_u64(std::num::wrapping_add_u64(p, z), c << m);
    std::num::wrapping_add_u64(d, 0x8000_0000_0000_0000)
}

// The upper 52 bits, with a sticky bit.
fn jam_word(g: u64) -> u64
    ensures { (Jam g 4096 result) × (result < 2 ^ 52) }
{
    sticky(g >> 12, g % 4096)
}

// From LEAST_PLACE on the exact sum has t's sign and its last digit two places or more above the residual's cut; below
// 63 the residual fits one word.
fn reach(ex: u64, ey: u64, k: u64, m: u64) -> bool
    ensures { result ≡ Residual.reach ex ey k m }
{
    (central(ex) & central(ey)) & ((k < 64) & ((LEAST_PLACE <= m) & (m < 63)))
}

// fma for every input. Where neither factor is near the smallest or the largest values, z is not far from the
// product and little is lost by cancelling, three roundings of the hardware are enough: the third adds the exact
// residual of the first two. A flat screen has many a z of 0, so that is tested first.
#[tactic(auto, using(binary64::proofs::Pattern::self_equal, fused_integer::proofs::Laws::Cases::lone_product_lem, crate::proofs::Laws::Candidate::cut_place), unfolding(crate::specs::Residual::lone_product))]
pub fn mul_add(x: f64, y: f64, z: f64) -> f64
    ensures { result ≡ fma x y z }
{
    let p = x * y;
    if lone_product(p, z) {
        return p;
    }
    let t = p + z;
    if t != t {
        return fused_integer::fused_integer(x, y, z);
    }
    let bx = f64::to_bits(x);
    let by = f64::to_bits(y);
    let bz = f64::to_bits(z);
    let bt = f64::to_bits(t);
    let ex = field(bx);
    let ey = field(by);
    let k = std::num::wrapping_sub_u64(field(bz) + QUANTUM_BIAS, ex + ey);
    let m = std::num::wrapping_sub_u64(field(bt) + QUANTUM_BIAS, ex + ey);
    if !reach(ex, ey, k, m) {
        return guided(x, y, z, t);
    }
    let nt = minus_sign(bt);
    let np = minus_sign(bx) != minus_sign(by);
    let cp = np != nt;
    let cz = minus_sign(bz) != nt;
    let g = residual_word(
        cp,
        normal_significand(bx),
        normal_significand(by),
        cz,
        normal_significand(bz),
        k,
        normal_significand(bt),
        m,
    );
    t + residual_float(nt, jam_word(g), ex + ey - RESIDUAL_BIAS)
}

// fma x x z for every input. Where z is not negative no sign is left to be looked at.
#[tactic(auto, using(binary64::proofs::Pattern::self_equal, fused_integer::proofs::Laws::Cases::lone_product_lem, crate::proofs::Laws::Candidate::cut_place), unfolding(crate::specs::Residual::lone_product))]
pub fn square_add(x: f64, z: f64) -> f64
    ensures { result ≡ fma x x z }
{
    let p = x * x;
    if lone_product(p, z) {
        return p;
    }
    let t = p + z;
    if t != t {
        return mul_add(x, x, z);
    }
    let bx = f64::to_bits(x);
    let bz = f64::to_bits(z);
    let bt = f64::to_bits(t);
    if minus_sign(bz) {
        return mul_add(x, x, z);
    }
    let ex = field(bx);
    let ez = field(bz);
    let et = field(bt);
    let k = std::num::wrapping_sub_u64(ez + QUANTUM_BIAS, ex + ex);
    let m = std::num::wrapping_sub_u64(et + QUANTUM_BIAS, ex + ex);
    if !reach(ex, ex, k, m) {
        return guided(x, x, z, t);
    }
    let u = normal_significand(bx);
    let g = residual_word(
        false,
        u,
        u,
        false,
        normal_significand(bz),
        k,
        normal_significand(bt),
        m,
    );
    t + residual_float(false, jam_word(g), ex + ex - RESIDUAL_BIAS)
}
