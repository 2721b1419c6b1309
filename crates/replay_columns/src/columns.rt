// The columns of a mesh that begins at place k of a case: x, y, z, then the panels' three corners.
ghost use Rattle.std.specs.Prelude.{◌≡◌, ◌≤◌, length};
ghost use Rattle.mesh.specs.Columns.{viewed};
ghost use Rattle.replay_columns.specs.Columns as Spec;

use mesh::columns::{NodeColumns, PanelColumns, TriangleMeshView};
use replay_words::words::column_end;

// The place of the length of column i; that of column 6 is the place behind the mesh.
pub fn column_at(w: &[u64; 2048], k: usize, i: usize) -> usize
    requires { (k ≤ 1) × (i ≤ 6) }
    ensures { (result ≡ Spec.column_at w.now k i) × (result ≤ 298) }
{
    let mut at = k;
    for _ in 0..i {
        at = column_end(w, at);
    }
    at
}

// Its elements, of the case's words as numbers or as places.
pub fn column<'a, T>(all: &'a [T; 2048], w: &[u64; 2048], k: usize, i: usize) -> &'a [T]
    requires { (k ≤ 1) × (i ≤ 5) }
    ensures { (result.now ≡ Spec.column all.now w.now k i) × (length result.now ≤ 48) }
{
    let from = column_at(w, k, i);
    let to = column_end(w, from);
    let all = &all[..];
    &all[from + 1..to]
}

// The mesh, of the case's words as numbers and as places.
pub fn mesh_at<'a>(
    f: &'a [f64; 2048],
    u: &'a [usize; 2048],
    w: &[u64; 2048],
    k: usize,
) -> TriangleMeshView<'a>
    requires { k ≤ 1 }
    ensures value { viewed result ≡ Spec.mesh_at f.now u.now w.now k }
    ensures short { (length result.nodes.x.now ≤ 48) × (length result.nodes.y.now ≤ 48) × (length result.nodes.z.now ≤ 48) }
{
    TriangleMeshView {
        nodes: NodeColumns {
            x: column(f, w, k, 0),
            y: column(f, w, k, 1),
            z: column(f, w, k, 2),
        },
        panels: PanelColumns {
            t0: column(u, w, k, 3),
            t1: column(u, w, k, 4),
            t2: column(u, w, k, 5),
        },
    }
}
