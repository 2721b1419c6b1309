// The writer of the panel file: behind the mesh stands the length of the output. The case's bytes stand in b, eight to a word.
#![tactic(auto)]

ghost use Rattle.std.specs.Prelude.{◌≡◌, ◌≤◌, ◌<◌, length};
ghost use Rattle.refusal.specs.Outcome.{number_of};
ghost use Rattle.mesh.specs.Columns.{viewed};
ghost use Rattle.replay_writer.specs.Writer as Spec;

use mesh::columns::TriangleMeshView;
use refusal::Refusal;
use replay_columns::columns::{column_at, mesh_at};
use replay_words::words::{cut_at, same_refusal};

// The output, compared whole: with the stored bytes, or on a refusal with the pattern that it was lent with.
fn held_bytes<A>(outcome: &Result<A, Refusal>, out: &[u8], stored: &[u8]) -> bool
    requires { length out.now ≤ 512 }
    ensures { result ≡ Spec.held_bytes (number_of outcome.now) out.now stored.now }
{
    let pattern = [77u8; 512];
    match outcome {
        Ok(_) => out == stored,
        Err(_) => out == &pattern[..out.len()],
    }
}

// The writer's call, its number and its output compared.
fn write_into(
    mesh: &TriangleMeshView,
    out: &mut [u8],
    stored: &[u8],
    w: &[u64; 2048],
    k: usize,
) -> bool
    requires { (length out.old ≤ 512) × (k < 2048) }
    ensures { result ≡ Spec.write_into (viewed mesh.now) out.old stored.now w.now k }
{
    let outcome = panel_file_write::write_panel_file(mesh, out);
    let a = same_refusal(&outcome, w, k);
    let b = held_bytes(&outcome, out, stored);
    a & b
}

// The mesh ends before place g.
#[tactic(auto, unfolding(crate::specs::Writer::write_file_of))]
fn write_file_of(mesh: &TriangleMeshView, b: &[u8; 16384], w: &[u64; 2048], g: usize) -> bool
    requires { g ≤ 298 }
    ensures { result ≡ Spec.write_file_of (viewed mesh.now) b.now w.now g }
{
    let n = cut_at(w, g, 512);
    let m = cut_at(w, g + 2, 2048);
    let all = &b[..];
    let from = 8 * g + 24;
    let stored = &all[from..from + m];
    let mut out = [77u8; 512];
    write_into(mesh, &mut out[0..n], stored, w, g + 1)
}

// The mesh is the first input.
#[tactic(auto, unfolding(crate::specs::Writer::write_file))]
fn write_file(b: &[u8; 16384], f: &[f64; 2048], u: &[usize; 2048], w: &[u64; 2048]) -> bool
    ensures { result ≡ Spec.write_file b.now f.now u.now w.now }
{
    let mesh = mesh_at(f, u, w, 0);
    write_file_of(&mesh, b, w, column_at(w, 0, 6))
}

// By the kind's number.
#[tactic(auto, unfolding(crate::specs::Writer::writer_agrees))]
pub fn agree(
    kind: u64,
    b: &[u8; 16384],
    f: &[f64; 2048],
    u: &[usize; 2048],
    w: &[u64; 2048],
) -> bool
    ensures { result ≡ Spec.writer_agrees kind b.now f.now u.now w.now }
{
    match kind {
        58 => write_file(b, f, u, w),
        _ => false,
    }
}
