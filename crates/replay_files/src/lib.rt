// A panel file's bytes: the reader, and the program `density`. The case's bytes stand in b, eight to a word.
#![tactic(auto)]

ghost use Rattle.std.specs.Prelude.{◌≡◌, ◌+◌, ◌≤◌, length};
ghost use Rattle.refusal.specs.Outcome.{number_of};
ghost use Rattle.replay_files.specs.Files as Spec;

use refusal::Refusal;
use replay_words::buffers::{Stored, held};
use replay_words::bytes::bytes_end;
use replay_words::words::{cut_at, same_refusal};

// Three columns, one behind the other.
#[tactic(auto, unfolding(crate::specs::Files::held_three))]
fn held_three<T: Stored, A>(
    outcome: &Result<A, Refusal>,
    a: &[T],
    b: &[T],
    c: &[T],
    w: &[u64; 2048],
    k: usize,
) -> bool
    requires { k + length a.now + length b.now + length c.now ≤ 2048 }
    ensures { result ≡ Spec.held_three T.word T.beyond T.pattern (number_of outcome.now) a.now b.now c.now w.now k }
{
    let p = k + a.len();
    let q = p + b.len();
    let first = held(outcome, a, w, k);
    let second = held(outcome, b, w, p);
    let third = held(outcome, c, w, q);
    first & second & third
}

// The reader's call, its number and its six columns, one behind the other, compared.
fn read_file_into(
    bytes: &[u8],
    x: &mut [f64],
    y: &mut [f64],
    z: &mut [f64],
    t0: &mut [usize],
    t1: &mut [usize],
    t2: &mut [usize],
    w: &[u64; 2048],
    k: usize,
) -> bool
    requires { Spec.Short x.old y.old z.old t0.old t1.old t2.old k }
    ensures { result ≡ Spec.read_file_into bytes.now x.old y.old z.old t0.old t1.old t2.old w.now k }
{
    let outcome = panel_file::read_panel_file(bytes, x, y, z, t0, t1, t2);
    let p = k + 1 + x.len() + y.len() + z.len();
    let a = same_refusal(&outcome, w, k);
    let b = held_three(&outcome, x, y, z, w, k + 1);
    let c = held_three(&outcome, t0, t1, t2, w, p);
    a & b & c
}

// Columns of panels are lent beside those of nodes.
fn read_panels_into(
    bytes: &[u8],
    x: &mut [f64],
    y: &mut [f64],
    z: &mut [f64],
    w: &[u64; 2048],
    q: usize,
) -> bool
    requires { (length x.old ≤ 64) × (length y.old ≤ 64) × (length z.old ≤ 64) × (q ≤ 65) }
    ensures { result ≡ Spec.read_panels_into bytes.now x.old y.old z.old w.now q }
{
    let n0 = cut_at(w, q + 3, 64);
    let n1 = cut_at(w, q + 4, 64);
    let n2 = cut_at(w, q + 5, 64);
    let mut t0 = [77usize; 64];
    let mut t1 = [77usize; 64];
    let mut t2 = [77usize; 64];
    read_file_into(
        bytes,
        x,
        y,
        z,
        &mut t0[0..n0],
        &mut t1[0..n1],
        &mut t2[0..n2],
        w,
        q + 6,
    )
}

// The six lengths begin at place q.
fn read_file_of(bytes: &[u8], w: &[u64; 2048], q: usize) -> bool
    requires { q ≤ 65 }
    ensures { result ≡ Spec.read_file_of bytes.now w.now q }
{
    let nx = cut_at(w, q, 64);
    let ny = cut_at(w, q + 1, 64);
    let nz = cut_at(w, q + 2, 64);
    let mut x = [77.0f64; 64];
    let mut y = [77.0f64; 64];
    let mut z = [77.0f64; 64];
    read_panels_into(bytes, &mut x[0..nx], &mut y[0..ny], &mut z[0..nz], w, q)
}

fn read_file(b: &[u8; 16384], w: &[u64; 2048]) -> bool
    ensures { result ≡ Spec.read_file b.now w.now }
{
    let n = cut_at(w, 0, 512);
    let q = bytes_end(n);
    let all = &b[..];
    read_file_of(&all[8..8 + n], w, q)
}

// Whether the program prints so for an input.
fn prints(input: &[u8], stored: &[u8]) -> bool
    ensures { result ≡ Spec.prints input.now stored.now }
{
    let mut output = [0u8; 7054];
    let k = density_text::density_text(input, &mut output);
    &output[..k] == stored
}

fn density_program(b: &[u8; 16384], w: &[u64; 2048]) -> bool
    ensures { result ≡ Spec.density_program b.now w.now }
{
    let n = cut_at(w, 0, 512);
    let q = bytes_end(n);
    let m = cut_at(w, q, 2048);
    let all = &b[..];
    let from = 8 * q + 8;
    prints(&all[8..8 + n], &all[from..from + m])
}

// By the kind's number.
#[tactic(auto, unfolding(crate::specs::Files::files_agree))]
pub fn agree(kind: u64, b: &[u8; 16384], w: &[u64; 2048]) -> bool
    ensures { result ≡ Spec.files_agree kind b.now w.now }
{
    match kind {
        33 => read_file(b, w),
        34 => density_program(b, w),
        _ => false,
    }
}
