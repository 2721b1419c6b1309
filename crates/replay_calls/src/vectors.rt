// Vectors.
ghost use Rattle.std.specs.Prelude.{◌≡◌};
ghost use Rattle.replay_calls.specs.Kinds as Spec;

use replay_words::words::{same_number, same_vector, vector};

pub fn dot3(f: &[f64; 2048], w: &[u64; 2048]) -> bool
    ensures { result ≡ Spec.dot3 f.now w.now }
{
    same_number(math::dot3(vector(f, 0), vector(f, 3)), w, 6)
}

pub fn cross3(f: &[f64; 2048], w: &[u64; 2048]) -> bool
    ensures { result ≡ Spec.cross3 f.now w.now }
{
    same_vector(math::cross3(vector(f, 0), vector(f, 3)), w, 6)
}

pub fn norm3(f: &[f64; 2048], w: &[u64; 2048]) -> bool
    ensures { result ≡ Spec.norm3 f.now w.now }
{
    same_number(math::norm3(vector(f, 0)), w, 3)
}

pub fn normalize3(f: &[f64; 2048], w: &[u64; 2048]) -> bool
    ensures { result ≡ Spec.normalize3 f.now w.now }
{
    same_vector(math::normalize3(vector(f, 0)), w, 3)
}

pub fn add_scaled3(f: &[f64; 2048], w: &[u64; 2048]) -> bool
    ensures { result ≡ Spec.add_scaled3 f.now w.now }
{
    same_vector(math::add_scaled3(vector(f, 0), vector(f, 3), f[6]), w, 7)
}

pub fn sub3(f: &[f64; 2048], w: &[u64; 2048]) -> bool
    ensures { result ≡ Spec.sub3 f.now w.now }
{
    same_vector(math::sub3(vector(f, 0), vector(f, 3)), w, 6)
}

pub fn add3(f: &[f64; 2048], w: &[u64; 2048]) -> bool
    ensures { result ≡ Spec.add3 f.now w.now }
{
    same_vector(math::add3(vector(f, 0), vector(f, 3)), w, 6)
}

pub fn scale3(f: &[f64; 2048], w: &[u64; 2048]) -> bool
    ensures { result ≡ Spec.scale3 f.now w.now }
{
    same_vector(math::scale3(vector(f, 0), f[3]), w, 4)
}

// By the kind's number.
#[tactic(auto, unfolding(crate::specs::Kinds::vectors_agree, crate::specs::Kinds::chosen))]
pub fn agree(kind: u64, f: &[f64; 2048], w: &[u64; 2048]) -> bool
    ensures { result ≡ Spec.vectors_agree kind f.now w.now }
{
    match kind {
        6 => dot3(f, w),
        7 => cross3(f, w),
        8 => norm3(f, w),
        44 => normalize3(f, w),
        45 => add_scaled3(f, w),
        46 => sub3(f, w),
        47 => add3(f, w),
        48 => scale3(f, w),
        _ => false,
    }
}
