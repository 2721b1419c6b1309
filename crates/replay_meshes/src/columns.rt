// A case by its mesh. The words stand in u as places.
ghost use Rattle.std.specs.Prelude.{◌≡◌, ◌≤◌};
ghost use Rattle.mesh.specs.Columns.{viewed};
ghost use Rattle.replay_meshes.specs.Meshes as Spec;

use crate::densities::densities_of;
use crate::quadratures::quadrature_of;
use mesh::columns::TriangleMeshView;
use replay_columns::columns::{column_at, mesh_at};
use replay_words::words::{rule_of, same_count};

fn mesh_test_of(mesh: &TriangleMeshView, w: &[u64; 2048], g: usize) -> bool
    requires { g ≤ 298 }
    ensures { result ≡ Spec.mesh_test_of (viewed mesh.now) w.now g }
{
    same_count(mesh::validate_triangle_mesh_geometry(mesh), w, g)
}

// By the kind's number; the mesh ends before place g.
#[tactic(auto, unfolding(crate::specs::Meshes::of_mesh))]
fn of_mesh(kind: u64, mesh: &TriangleMeshView, f: &[f64; 2048], w: &[u64; 2048], g: usize) -> bool
    requires { g ≤ 298 }
    ensures { result ≡ Spec.of_mesh kind (viewed mesh.now) f.now w.now g }
{
    match kind {
        20 => mesh_test_of(mesh, w, g),
        21 => quadrature_of(rule_of(w[0]), mesh, w, g),
        22 => densities_of(mesh, f, w, g),
        _ => false,
    }
}

// The mesh begins at place k.
#[tactic(auto, unfolding(crate::specs::Meshes::with_mesh))]
fn with_mesh(kind: u64, f: &[f64; 2048], u: &[usize; 2048], w: &[u64; 2048], k: usize) -> bool
    requires { k ≤ 1 }
    ensures { result ≡ Spec.with_mesh kind f.now u.now w.now k }
{
    let mesh = mesh_at(f, u, w, k);
    of_mesh(kind, &mesh, f, w, column_at(w, k, 6))
}

// The mesh is the first input, or stands behind a rule.
#[tactic(auto, unfolding(crate::specs::Meshes::meshes_agree))]
pub fn agree(kind: u64, f: &[f64; 2048], u: &[usize; 2048], w: &[u64; 2048]) -> bool
    ensures { result ≡ Spec.meshes_agree kind f.now u.now w.now }
{
    match kind {
        21 => with_mesh(kind, f, u, w, 1),
        _ => with_mesh(kind, f, u, w, 0),
    }
}
