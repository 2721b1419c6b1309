// The quadrature points: behind the mesh stand the lengths of four outputs.
ghost use Rattle.std.specs.Prelude.{◌≡◌, ◌+◌, ◌≤◌, length};
ghost use Rattle.mesh.specs.Columns.{viewed};
ghost use Rattle.replay_meshes.specs.Meshes as Spec;

use boundary_element::quadrature_points;
use mesh::columns::TriangleMeshView;
use replay_words::buffers::held;
use replay_words::words::{cut_at, same_refusal};

// The quadrature points' call, its number and its buffers compared.
fn quadrature_into(
    rule: u32,
    mesh: &TriangleMeshView,
    px: &mut [f64],
    py: &mut [f64],
    pz: &mut [f64],
    pw: &mut [f64],
    w: &[u64; 2048],
    k: usize,
) -> bool
    requires { k + 1 + length px.old + length py.old + length pz.old + length pw.old ≤ 2048 }
    ensures { result ≡ Spec.quadrature_into rule (viewed mesh.now) px.old py.old pz.old pw.old w.now k }
{
    let p = k + 1 + px.len();
    let q = p + py.len();
    let n = q + pz.len();
    let outcome = quadrature_points::triangle_mesh_quadrature_points(rule, mesh, px, py, pz, pw);
    let a = same_refusal(&outcome, w, k);
    let b = held(&outcome, px, w, k + 1);
    let c = held(&outcome, py, w, p);
    let d = held(&outcome, pz, w, q);
    let e = held(&outcome, pw, w, n);
    a & b & c & d & e
}

pub fn quadrature_of(rule: u32, mesh: &TriangleMeshView, w: &[u64; 2048], g: usize) -> bool
    requires { g ≤ 298 }
    ensures { result ≡ Spec.quadrature_of rule (viewed mesh.now) w.now g }
{
    let nx = cut_at(w, g, 64);
    let ny = cut_at(w, g + 1, 64);
    let nz = cut_at(w, g + 2, 64);
    let nw = cut_at(w, g + 3, 64);
    let mut px = [77.0f64; 64];
    let mut py = [77.0f64; 64];
    let mut pz = [77.0f64; 64];
    let mut pw = [77.0f64; 64];
    quadrature_into(
        rule,
        mesh,
        &mut px[0..nx],
        &mut py[0..ny],
        &mut pz[0..nz],
        &mut pw[0..nw],
        w,
        g + 4,
    )
}
