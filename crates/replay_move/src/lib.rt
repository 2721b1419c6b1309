// The move of a node: behind the rule and the mesh stand the matrix, the node and its new place. The call is lent copies of what it changes.
#![tactic(auto)]

ghost use Rattle.std.specs.Prelude.{◌≡◌, ◌+◌, ◌≤◌, length};
ghost use Rattle.mesh.specs.Columns.{viewed};
ghost use Rattle.node_move.specs.Move.{on_panels};
ghost use Rattle.replay_move.specs.Move as Spec;

use mesh::columns::{NodeColumns, PanelColumns, TriangleMeshView};
use replay_columns::after::left_as_due;
use replay_columns::columns::{column_at, mesh_at};
use replay_words::copies::copied;
use replay_words::words::{cut_at, rule_of, vector};

// The call on copies, compared.
fn move_into(
    rule: u32,
    x: &mut [f64],
    y: &mut [f64],
    z: &mut [f64],
    panels: &PanelColumns,
    cells: &mut [f64],
    node: usize,
    place: [f64; 3],
    before: &NodeColumns,
    cells_before: &[f64],
    w: &[u64; 2048],
    k: usize,
) -> bool
    requires z_bound { k + 2 + length cells_before.now + length before.now.x.now + length before.now.y.now + length before.now.z.now ≤ 2048 }
    requires x_value { (x.old ≡ before.now.x.now) × (y.old ≡ before.now.y.now) × (z.old ≡ before.now.z.now) × (cells.old ≡ cells_before.now) }
    ensures { result ≡ Spec.move_into rule (on_panels x.old y.old z.old panels.now) cells.old node place w.now k }
{
    let outcome = node_move::move_node(rule, x, y, z, panels, cells, node, place);
    let now = NodeColumns { x, y, z };
    left_as_due(outcome, &now, cells, before, cells_before, w, k)
}

fn move_of(rule: u32, mesh: &TriangleMeshView, f: &[f64; 2048], w: &[u64; 2048], g: usize) -> bool
    requires { (g ≤ 298) × (length mesh.now.nodes.x.now ≤ 48) × (length mesh.now.nodes.y.now ≤ 48) × (length mesh.now.nodes.z.now ≤ 48) }
    ensures { result ≡ Spec.move_of rule (viewed mesh.now) f.now w.now g }
{
    let n = cut_at(w, g, 576);
    let all = &f[..];
    let cells = &all[g + 1..g + 1 + n];
    let node = w[g + 1 + n] as usize;
    let place = vector(f, g + 2 + n);
    let nodes = mesh.nodes;
    let mut x = copied::<f64, 576>(nodes.x, 0.0);
    let mut y = copied::<f64, 576>(nodes.y, 0.0);
    let mut z = copied::<f64, 576>(nodes.z, 0.0);
    let mut c = copied::<f64, 576>(cells, 0.0);
    move_into(
        rule,
        &mut x[0..nodes.x.len()],
        &mut y[0..nodes.y.len()],
        &mut z[0..nodes.z.len()],
        &mesh.panels,
        &mut c[0..cells.len()],
        node,
        place,
        &nodes,
        cells,
        w,
        g + 5 + n,
    )
}

// The move of a case.
#[tactic(auto, unfolding(crate::specs::Move::move_case))]
fn move_case(f: &[f64; 2048], u: &[usize; 2048], w: &[u64; 2048]) -> bool
    ensures { result ≡ Spec.move_case f.now u.now w.now }
{
    let mesh = mesh_at(f, u, w, 1);
    move_of(rule_of(w[0]), &mesh, f, w, column_at(w, 1, 6))
}

// By the kind's number.
#[tactic(auto, unfolding(crate::specs::Move::moves_agree))]
pub fn agree(kind: u64, f: &[f64; 2048], u: &[usize; 2048], w: &[u64; 2048]) -> bool
    ensures { result ≡ Spec.moves_agree kind f.now u.now w.now }
{
    match kind {
        30 => move_case(f, u, w),
        _ => false,
    }
}
