// The return to a named shape: behind the rule and the mesh stand the matrix, the store and the name. The call is lent copies of
// what it changes. The case's bytes stand in b, eight to a word.
#![tactic(auto)]

ghost use Rattle.std.specs.Prelude.{◌≡◌, ◌+◌, ◌≤◌, length};
ghost use Rattle.mesh.specs.Columns.{viewed};
ghost use Rattle.node_move.specs.Move.{on_panels};
ghost use Rattle.replay_return.specs.Return as Spec;

use mesh::columns::{NodeColumns, PanelColumns, TriangleMeshView};
use replay_columns::after::left_as_due;
use replay_columns::columns::{column_at, mesh_at};
use replay_columns::store::{name_at, part_at};
use replay_shapes::store_at;
use replay_words::copies::copied;
use replay_words::words::{cut_at, rule_of};

// The call on copies, compared; the store begins at place q.
fn return_into(
    rule: u32,
    x: &mut [f64],
    y: &mut [f64],
    z: &mut [f64],
    panels: &PanelColumns,
    cells: &mut [f64],
    before: &NodeColumns,
    cells_before: &[f64],
    b: &[u8; 16384],
    f: &[f64; 2048],
    w: &[u64; 2048],
    q: usize,
) -> bool
    requires q_bound { (q ≤ 875) × (q + 408 + length cells_before.now + length before.now.x.now + length before.now.y.now + length before.now.z.now ≤ 2048) }
    requires x_value { (x.old ≡ before.now.x.now) × (y.old ≡ before.now.y.now) × (z.old ≡ before.now.z.now) × (cells.old ≡ cells_before.now) }
    ensures { result ≡ Spec.return_into rule (on_panels x.old y.old z.old panels.now) cells.old b.now f.now w.now q }
{
    let store = store_at(b, f, w, q);
    let e = part_at(w, q, 5);
    let name = name_at(b, e);
    let outcome = shape_return::return_shape(rule, x, y, z, panels, cells, &store, &name);
    let now = NodeColumns { x, y, z };
    left_as_due(outcome, &now, cells, before, cells_before, w, e + 1)
}

// The mesh ends before place g.
fn return_of(
    rule: u32,
    mesh: &TriangleMeshView,
    b: &[u8; 16384],
    f: &[f64; 2048],
    w: &[u64; 2048],
    g: usize,
) -> bool
    requires { (g ≤ 298) × (length mesh.now.nodes.x.now ≤ 48) × (length mesh.now.nodes.y.now ≤ 48) × (length mesh.now.nodes.z.now ≤ 48) }
    ensures { result ≡ Spec.return_of rule (viewed mesh.now) b.now f.now w.now g }
{
    let q = g + 1 + cut_at(w, g, 576);
    let all = &f[..];
    let cells = &all[g + 1..q];
    let nodes = mesh.nodes;
    let mut x = copied::<f64, 576>(nodes.x, 0.0);
    let mut y = copied::<f64, 576>(nodes.y, 0.0);
    let mut z = copied::<f64, 576>(nodes.z, 0.0);
    let mut c = copied::<f64, 576>(cells, 0.0);
    return_into(
        rule,
        &mut x[0..nodes.x.len()],
        &mut y[0..nodes.y.len()],
        &mut z[0..nodes.z.len()],
        &mesh.panels,
        &mut c[0..cells.len()],
        &nodes,
        cells,
        b,
        f,
        w,
        q,
    )
}

// The return of a case.
#[tactic(auto, unfolding(crate::specs::Return::return_case))]
fn return_case(b: &[u8; 16384], f: &[f64; 2048], u: &[usize; 2048], w: &[u64; 2048]) -> bool
    ensures { result ≡ Spec.return_case b.now f.now u.now w.now }
{
    let mesh = mesh_at(f, u, w, 1);
    return_of(rule_of(w[0]), &mesh, b, f, w, column_at(w, 1, 6))
}

// By the kind's number.
#[tactic(auto, unfolding(crate::specs::Return::returns_agree))]
pub fn agree(
    kind: u64,
    b: &[u8; 16384],
    f: &[f64; 2048],
    u: &[usize; 2048],
    w: &[u64; 2048],
) -> bool
    ensures { result ≡ Spec.returns_agree kind b.now f.now u.now w.now }
{
    match kind {
        61 => return_case(b, f, u, w),
        _ => false,
    }
}
