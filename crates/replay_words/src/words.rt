// A stored case: 2,048 words, the same as numbers, and the comparison of results with them.
ghost use Rattle.std.specs.Prelude.{◌≡◌, ◌+◌, ◌≤◌, ◌<◌};
ghost use Rattle.binary64.specs.Binary64.{plus_zero};
ghost use Rattle.refusal.specs.Outcome.{number_of, value_or};
ghost use Rattle.replay_words.specs.Words as Spec;

use refusal::Refusal;

pub fn vector(f: &[f64; 2048], k: usize) -> [f64; 3]
    requires { k + 3 ≤ 2048 }
    ensures { result ≡ Spec.vector_at f.now k }
{
    [f[k], f[k + 1], f[k + 2]]
}

pub fn triangle(f: &[f64; 2048], k: usize) -> [[f64; 3]; 3]
    requires { k + 9 ≤ 2048 }
    ensures { result ≡ Spec.triangle_at f.now k }
{
    let a = vector(f, k);
    let b = vector(f, k + 3);
    let c = vector(f, k + 6);
    [a, b, c]
}

pub fn coordinates_at(f: &[f64; 2048], k: usize) -> [f64; 9]
    requires { k + 9 ≤ 2048 }
    ensures { result ≡ Spec.coordinates_at f.now k }
{
    [
        f[k],
        f[k + 1],
        f[k + 2],
        f[k + 3],
        f[k + 4],
        f[k + 5],
        f[k + 6],
        f[k + 7],
        f[k + 8],
    ]
}

pub fn same_word(n: u64, w: &[u64; 2048], k: usize) -> bool
    requires { k < 2048 }
    ensures { result ≡ Spec.same_word n w.now k }
{
    n == w[k]
}

pub fn same_number(x: f64, w: &[u64; 2048], k: usize) -> bool
    requires { k < 2048 }
    ensures { result ≡ Spec.same_number x w.now k }
{
    same_word(ieee754::canonical_bits(x), w, k)
}

pub fn same_flag(t: bool, w: &[u64; 2048], k: usize) -> bool
    requires { k < 2048 }
    ensures { result ≡ Spec.same_flag t w.now k }
{
    same_word(t as u64, w, k)
}

pub fn same_vector(v: [f64; 3], w: &[u64; 2048], k: usize) -> bool
    requires { k + 3 ≤ 2048 }
    ensures { result ≡ Spec.same_vector v w.now k }
{
    let a = same_number(v[0], w, k);
    let b = same_number(v[1], w, k + 1);
    let c = same_number(v[2], w, k + 2);
    a & b & c
}

pub fn same_triangle(t: [[f64; 3]; 3], w: &[u64; 2048], k: usize) -> bool
    requires { k + 9 ≤ 2048 }
    ensures { result ≡ Spec.same_triangle t w.now k }
{
    let a = same_vector(t[0], w, k);
    let b = same_vector(t[1], w, k + 3);
    let c = same_vector(t[2], w, k + 6);
    a & b & c
}

pub fn same_nine(v: [f64; 9], w: &[u64; 2048], k: usize) -> bool
    requires { k + 9 ≤ 2048 }
    ensures { result ≡ Spec.same_nine v w.now k }
{
    let a = same_vector([v[0], v[1], v[2]], w, k);
    let b = same_vector([v[3], v[4], v[5]], w, k + 3);
    let c = same_vector([v[6], v[7], v[8]], w, k + 6);
    a & b & c
}

// A call's number, 0 where it is done.
pub fn same_refusal<A>(outcome: &Result<A, Refusal>, w: &[u64; 2048], k: usize) -> bool
    requires { k < 2048 }
    ensures { result ≡ Spec.same_word (number_of outcome.now) w.now k }
{
    same_word(refusal::number_of(outcome) as u64, w, k)
}

// A call's number and its value, zero on a refusal.
pub fn same_value(outcome: Result<f64, Refusal>, w: &[u64; 2048], k: usize) -> bool
    requires { k + 2 ≤ 2048 }
    ensures { result ≡ Spec.same_value (number_of outcome) (value_or plus_zero outcome) w.now k }
{
    let a = same_refusal(&outcome, w, k);
    let b = same_number(outcome.unwrap_or(0.0), w, k + 1);
    a & b
}

pub fn rule_of(n: u64) -> u32
    ensures { result ≡ Spec.rule_of n }
{
    if n < 0x1_0000_0000 {
        return n as u32;
    }
    0
}

// A stored length, cut at the most that is replayed.
pub fn cut_at(w: &[u64; 2048], k: usize, most: usize) -> usize
    requires { k < 2048 }
    ensures { (result ≡ Spec.cut_at w.now k most) × (result ≤ most) }
{
    w[k].min(most as u64) as usize
}

// The place behind a mesh's column.
pub fn column_end(w: &[u64; 2048], k: usize) -> usize
    requires { k < 400 }
    ensures { (result ≡ Spec.column_end w.now k) × (k < result) × (result ≤ k + 49) }
{
    k + 1 + cut_at(w, k, 48)
}

// A call's number and its count, 0 on a refusal.
pub fn same_count(outcome: Result<usize, Refusal>, w: &[u64; 2048], k: usize) -> bool
    requires { k + 2 ≤ 2048 }
    ensures { result ≡ Spec.same_count (number_of outcome) (value_or 0 outcome) w.now k }
{
    let a = same_refusal(&outcome, w, k);
    let b = same_word(outcome.unwrap_or(0) as u64, w, k + 1);
    a & b
}

// A refusal, where a row begins and how long it is.
pub fn same_place(refusal: u32, offset: usize, count: usize, w: &[u64; 2048], k: usize) -> bool
    requires { k + 3 ≤ 2048 }
    ensures { result ≡ Spec.same_place refusal offset count w.now k }
{
    let a = same_word(refusal as u64, w, k);
    let b = same_word(offset as u64, w, k + 1);
    let c = same_word(count as u64, w, k + 2);
    a & b & c
}
