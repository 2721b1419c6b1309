// The inductance matrix: behind the rule and the mesh stands the length of the output.
#![tactic(auto)]

ghost use Rattle.std.specs.Prelude.{◌≡◌, ◌+◌, ◌≤◌, length};
ghost use Rattle.mesh.specs.Columns.{viewed};
ghost use Rattle.replay_matrices.specs.Matrices as Spec;

use mesh::columns::TriangleMeshView;
use replay_columns::columns::{column_at, mesh_at};
use replay_words::buffers::held;
use replay_words::words::{cut_at, rule_of, same_refusal};

// The matrix' call, its number and its cells compared.
fn matrix_into(
    rule: u32,
    mesh: &TriangleMeshView,
    out: &mut [f64],
    w: &[u64; 2048],
    k: usize,
) -> bool
    requires { k + 1 + length out.old ≤ 2048 }
    ensures { result ≡ Spec.matrix_into rule (viewed mesh.now) out.old w.now k }
{
    let outcome = inductance::triangle_mesh_inductance_matrix(rule, mesh, out);
    let a = same_refusal(&outcome, w, k);
    let b = held(&outcome, out, w, k + 1);
    a & b
}

fn matrix_of(rule: u32, mesh: &TriangleMeshView, w: &[u64; 2048], g: usize) -> bool
    requires { g ≤ 298 }
    ensures { result ≡ Spec.matrix_of rule (viewed mesh.now) w.now g }
{
    let n = cut_at(w, g, 576);
    let mut out = [77.0f64; 576];
    matrix_into(rule, mesh, &mut out[0..n], w, g + 1)
}

// The matrix of a case.
#[tactic(auto, unfolding(crate::specs::Matrices::matrix_case))]
fn matrix_case(f: &[f64; 2048], u: &[usize; 2048], w: &[u64; 2048]) -> bool
    ensures { result ≡ Spec.matrix_case f.now u.now w.now }
{
    let mesh = mesh_at(f, u, w, 1);
    matrix_of(rule_of(w[0]), &mesh, w, column_at(w, 1, 6))
}

// By the kind's number.
#[tactic(auto, unfolding(crate::specs::Matrices::matrices_agree))]
pub fn agree(kind: u64, f: &[f64; 2048], u: &[usize; 2048], w: &[u64; 2048]) -> bool
    ensures { result ≡ Spec.matrices_agree kind f.now u.now w.now }
{
    match kind {
        25 => matrix_case(f, u, w),
        _ => false,
    }
}
