// The current densities: behind the mesh stand nodal values and the lengths of three outputs.
ghost use Rattle.std.specs.Prelude.{◌≡◌, ◌+◌, ◌≤◌, length};
ghost use Rattle.mesh.specs.Columns.{viewed};
ghost use Rattle.replay_meshes.specs.Meshes as Spec;

use boundary_element::current_density;
use mesh::columns::TriangleMeshView;
use replay_words::buffers::held;
use replay_words::words::{column_end, cut_at, same_refusal};

// The densities' call, its number and its buffers compared.
fn densities_into(
    mesh: &TriangleMeshView,
    s: &[f64],
    jx: &mut [f64],
    jy: &mut [f64],
    jz: &mut [f64],
    w: &[u64; 2048],
    k: usize,
) -> bool
    requires { k + 1 + length jx.old + length jy.old + length jz.old ≤ 2048 }
    ensures { result ≡ Spec.densities_into (viewed mesh.now) s.now jx.old jy.old jz.old w.now k }
{
    let p = k + 1 + jx.len();
    let q = p + jy.len();
    let outcome = current_density::triangle_mesh_current_density(mesh, s, jx, jy, jz);
    let a = same_refusal(&outcome, w, k);
    let b = held(&outcome, jx, w, k + 1);
    let c = held(&outcome, jy, w, p);
    let d = held(&outcome, jz, w, q);
    a & b & c & d
}

pub fn densities_of(mesh: &TriangleMeshView, f: &[f64; 2048], w: &[u64; 2048], g: usize) -> bool
    requires { g ≤ 298 }
    ensures { result ≡ Spec.densities_of (viewed mesh.now) f.now w.now g }
{
    let h = column_end(w, g);
    let all = &f[..];
    let s = &all[g + 1..h];
    let nx = cut_at(w, h, 64);
    let ny = cut_at(w, h + 1, 64);
    let nz = cut_at(w, h + 2, 64);
    let mut jx = [77.0f64; 64];
    let mut jy = [77.0f64; 64];
    let mut jz = [77.0f64; 64];
    densities_into(
        mesh,
        s,
        &mut jx[0..nx],
        &mut jy[0..ny],
        &mut jz[0..nz],
        w,
        h + 3,
    )
}
