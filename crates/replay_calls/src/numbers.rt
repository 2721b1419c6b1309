// Arithmetic.
ghost use Rattle.std.specs.Prelude.{◌≡◌};
ghost use Rattle.replay_calls.specs.Kinds as Spec;

use replay_words::words::same_number;

pub fn fma(f: &[f64; 2048], w: &[u64; 2048]) -> bool
    ensures { result ≡ Spec.fma f.now w.now }
{
    same_number(ieee754::mul_add(f[0], f[1], f[2]), w, 3)
}

pub fn sqrt(f: &[f64; 2048], w: &[u64; 2048]) -> bool
    ensures { result ≡ Spec.sqrt f.now w.now }
{
    same_number(ieee754::sqrt(f[0]), w, 1)
}

pub fn ln(f: &[f64; 2048], w: &[u64; 2048]) -> bool
    ensures { result ≡ Spec.ln f.now w.now }
{
    same_number(elementary::ln(f[0]), w, 1)
}

pub fn asinh(f: &[f64; 2048], w: &[u64; 2048]) -> bool
    ensures { result ≡ Spec.asinh f.now w.now }
{
    same_number(elementary::asinh(f[0]), w, 1)
}

pub fn atan2(f: &[f64; 2048], w: &[u64; 2048]) -> bool
    ensures { result ≡ Spec.atan2 f.now w.now }
{
    same_number(elementary::atan2(f[0], f[1]), w, 2)
}

pub fn min(f: &[f64; 2048], w: &[u64; 2048]) -> bool
    ensures { result ≡ Spec.min f.now w.now }
{
    same_number(ieee754::min(f[0], f[1]), w, 2)
}

pub fn max(f: &[f64; 2048], w: &[u64; 2048]) -> bool
    ensures { result ≡ Spec.max f.now w.now }
{
    same_number(ieee754::max(f[0], f[1]), w, 2)
}

pub fn clamp(f: &[f64; 2048], w: &[u64; 2048]) -> bool
    ensures { result ≡ Spec.clamp f.now w.now }
{
    same_number(ieee754::clamp(f[0], f[1], f[2]), w, 3)
}

pub fn abs(f: &[f64; 2048], w: &[u64; 2048]) -> bool
    ensures { result ≡ Spec.abs f.now w.now }
{
    same_number(ieee754::abs(f[0]), w, 1)
}

pub fn square_add(f: &[f64; 2048], w: &[u64; 2048]) -> bool
    ensures { result ≡ Spec.square_add f.now w.now }
{
    same_number(ieee754::square_add(f[0], f[1]), w, 2)
}

// By the kind's number.
#[tactic(auto, unfolding(crate::specs::Kinds::numbers_agree, crate::specs::Kinds::chosen))]
pub fn agree(kind: u64, f: &[f64; 2048], w: &[u64; 2048]) -> bool
    ensures { result ≡ Spec.numbers_agree kind f.now w.now }
{
    match kind {
        1 => fma(f, w),
        2 => sqrt(f, w),
        3 => ln(f, w),
        4 => asinh(f, w),
        5 => atan2(f, w),
        49 => min(f, w),
        50 => max(f, w),
        51 => clamp(f, w),
        52 => abs(f, w),
        53 => square_add(f, w),
        _ => false,
    }
}
