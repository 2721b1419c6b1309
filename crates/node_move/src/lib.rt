// The move of one node: its place is written and the cells of its ring's rows and columns are worked
// out anew, so that a fresh matrix is left fresh. Every test is made before anything is written.
#![tactic(auto)]

ghost use Rattle.std.specs.Prelude.{◌≡◌, ◌<◌, length};
ghost use Rattle.binary64.specs.Binary64.{at};
ghost use Rattle.mesh.specs.Mesh.{max_nodes};
ghost use Rattle.mesh.specs.Columns.{viewed_panels};
ghost use Rattle.mesh.specs.Conditions.{PanelColumnsAlike};
ghost use Rattle.scatter.specs.Entries.{same};
ghost use Rattle.scatter.specs.Flags.{IndicesBelow};
ghost use Rattle.node_ring.specs.Ring.{MarksRing};
ghost use Rattle.refusal.specs.Outcome.{number_of, value_or};
ghost use Rattle.coupling.specs.Block.{mutual_inductance_block};
ghost use Rattle.inductance.specs.Matrix.{cell};
ghost use Rattle.node_move.specs.Move.{on_panels, Done, MovedBy, MovedUnder, MoveReady};

use mesh::columns::{NodeColumns, PanelColumns, TriangleMeshView};
use refusal::Refusal;
use tri::quadrature::QuadratureKind;

// The coordinates that are written are lent as three slices: a struct of three `&mut` would be no plainer, since
// each function would have to promise that it leaves the same references there.

// The ring of node v is marked. A function of its own: the room of its marks is free when the cells are worked out.
#[inline(never)]
fn mark_ring(marks: &mut [bool], panels: &PanelColumns, v: usize)
    requires panel_columns_alike { PanelColumnsAlike (viewed_panels panels.now) }
    requires indices_below { IndicesBelow max_nodes (viewed_panels panels.now) }
    requires marks_long { length marks.old ≡ max_nodes }
    requires there { v < max_nodes }
    ensures { MarksRing (viewed_panels panels.now) (same v) marks.old marks.new }
{
    let mut changed = [false; mesh::MAX_NODES];
    node_ring::mark_node(&mut changed, v);
    node_ring::mark_rings(marks, &changed, panels);
}

// The ring is marked and counted, the place is written, the named cells are renewed.
fn move_accepted(
    kind: QuadratureKind,
    x: &mut [f64],
    y: &mut [f64],
    z: &mut [f64],
    panels: &PanelColumns,
    out: &mut [f64],
    v: usize,
    place: [f64; 3],
) -> usize
    requires { MoveReady (on_panels x.old y.old z.old panels.now) out.old v }
    ensures { Done (cell (mutual_inductance_block kind)) (on_panels x.old y.old z.old panels.now) out.old v (at place 0) (at place 1) (at place 2)
        result (on_panels x.new y.new z.new panels.now) out.new }
{
    let n = x.len();
    let mut marks = [false; mesh::MAX_NODES];
    mark_ring(&mut marks, panels, v);
    let r = node_ring::count_marks(&marks, n);
    x[v] = place[0];
    y[v] = place[1];
    z[v] = place[2];
    let mesh = TriangleMeshView {
        nodes: NodeColumns { x, y, z },
        panels: *panels,
    };
    inductance::renew(kind, &mesh, &marks, out);
    node_ring::named_cells(n, r)
}

// The move under a rule that there is; its answer is the count of the renewed cells.
fn move_under(
    kind: QuadratureKind,
    x: &mut [f64],
    y: &mut [f64],
    z: &mut [f64],
    panels: &PanelColumns,
    out: &mut [f64],
    v: usize,
    place: [f64; 3],
) -> Result<usize, Refusal>
    ensures { MovedUnder kind (on_panels x.old y.old z.old panels.now) out.old v (at place 0) (at place 1) (at place 2)
        (number_of result) (value_or 0 result) (on_panels x.new y.new z.new panels.now) out.new }
{
    let mesh = TriangleMeshView {
        nodes: NodeColumns { x, y, z },
        panels: *panels,
    };
    node_ring::check_place(&mesh, out.len(), v, place)?;
    let count = move_accepted(kind, x, y, z, panels, out, v, place);
    Ok(count)
}

// The move of node v to a place, on any mesh, out, node, place and rule number.
pub fn move_node(
    rule: u32,
    x: &mut [f64],
    y: &mut [f64],
    z: &mut [f64],
    panels: &PanelColumns,
    out: &mut [f64],
    v: usize,
    place: [f64; 3],
) -> Result<usize, Refusal>
    ensures { MovedBy rule (on_panels x.old y.old z.old panels.now) out.old v (at place 0) (at place 1) (at place 2)
        (number_of result) (value_or 0 result) (on_panels x.new y.new z.new panels.now) out.new }
{
    let Some(kind) = tri::quadrature::quadrature_rule(rule) else {
        return Err(Refusal::NoSuchChoice);
    };
    move_under(kind, x, y, z, panels, out, v, place)
}
