// CR 5's return to a named shape: its coordinates are set and the cells of the rings of the nodes that differ are
// worked out anew, so that a fresh matrix is left fresh. Every test is made before anything is written.
#![tactic(auto)]

ghost use Rattle.std.specs.Prelude.{◌≡◌, ◌+◌, ◌*◌, ◌<◌, ◌≤◌, length, IfOk};
ghost use Rattle.refusal.specs.Outcome.{number_of, value_or};
ghost use Rattle.lists.specs.Stretch.{stretch};
ghost use Rattle.mesh.specs.Mesh.{max_nodes, nnode};
ghost use Rattle.mesh.specs.Columns.{viewed, viewed_nodes};
ghost use Rattle.mesh.specs.Conditions.{NodeColumnsAlike};
ghost use Rattle.node_move.specs.Move.{on_panels};
ghost use Rattle.shape_store.specs.Store.{viewed_store, place_of};
ghost use Rattle.shape_return.specs.Return as Spec;
ghost use Rattle.shape_return.specs.Return.{nodes_of, on_nodes, screen_on, Coordinates, MarksDiffering, MarksChanged, ShapeOf, DoneUnder, ReturnedBy, ReturnedUnder};

use mesh::columns::{NodeColumns, PanelColumns, TriangleMeshView};
use refusal::Refusal;
use shape_store::ShapeStore;
use tri::quadrature::QuadratureKind;

// Two coordinates are one number: +0 and −0 are not, NaN and NaN are. `==` on numbers says neither.
fn same_number(v: f64, w: f64) -> bool
    ensures { result ≡ Spec.same_number v w }
{
    ieee754::canonical_bits(v) == ieee754::canonical_bits(w)
}

// A node's coordinates are other numbers in the shape.
#[tactic(auto, unfolding(crate::specs::Return::differs))]
fn node_differs(nodes: &NodeColumns, shape: &NodeColumns, a: usize) -> bool
    requires a_in_bounds { (a < length nodes.now.x.now) × (a < length nodes.now.y.now) × (a < length nodes.now.z.now) }
    requires a_in_bounds_2 { (a < length shape.now.x.now) × (a < length shape.now.y.now) × (a < length shape.now.z.now) }
    ensures { result ≡ Spec.differs (viewed_nodes nodes.now) (viewed_nodes shape.now) a }
{
    let p = nodes.node(a);
    let q = shape.node(a);
    !same_number(p[0], q[0]) | (!same_number(p[1], q[1]) | !same_number(p[2], q[2]))
}

// The nodes that differ are marked.
fn mark_changed(changed: &mut [bool], nodes: &NodeColumns, shape: &NodeColumns)
    requires node_columns_alike { NodeColumnsAlike (viewed_nodes nodes.now) }
    requires node_columns_alike_2 { NodeColumnsAlike (viewed_nodes shape.now) }
    requires as_many { (length shape.now.x.now ≡ length nodes.now.x.now) × (length nodes.now.x.now ≤ length changed.old) }
    ensures { MarksDiffering (viewed_nodes nodes.now) (viewed_nodes shape.now) changed.new }
{
    for a in 0..nodes.x.len() {
        changed[a] = node_differs(nodes, shape, a);
    }
}

// The rings of the nodes that differ are marked.
fn mark_changed_rings(
    marks: &mut [bool],
    nodes: &NodeColumns,
    panels: &PanelColumns,
    shape: &NodeColumns,
)
    requires shape_of { ShapeOf (on_nodes shape.now panels.now) (on_nodes nodes.now panels.now) }
    requires max_nodes_in_bounds { max_nodes ≤ length marks.old }
    ensures { MarksChanged (on_nodes nodes.now panels.now) (on_nodes shape.now panels.now) marks.old marks.new }
{
    let mut changed = [false; mesh::MAX_NODES];
    mark_changed(&mut changed, nodes, shape);
    node_ring::mark_rings(marks, &changed, panels);
}

// The coordinates of the shape. What is written is lent as three slices: a struct of three `&mut` would be no
// plainer, since each function would have to promise that it leaves the same references there.
fn set_nodes(x: &mut [f64], y: &mut [f64], z: &mut [f64], shape: &NodeColumns)
    requires node_columns_alike { NodeColumnsAlike (nodes_of x.old y.old z.old) }
    requires node_columns_alike_2 { NodeColumnsAlike (viewed_nodes shape.now) }
    requires as_many { length shape.now.x.now ≡ length x.old }
    ensures { nodes_of x.new y.new z.new ≡ viewed_nodes shape.now }
{
    lists::put(x, 0, shape.x);
    lists::put(y, 0, shape.y);
    lists::put(z, 0, shape.z);
}

// Lent coordinates as one value.
fn lent_nodes<'a>(x: &'a [f64], y: &'a [f64], z: &'a [f64]) -> NodeColumns<'a>
    ensures { viewed_nodes result ≡ nodes_of x.now y.now z.now }
{
    NodeColumns { x, y, z }
}

// The rings of the nodes that differ are marked and counted, the coordinates are set, the named cells are renewed.
fn restore(
    kind: QuadratureKind,
    x: &mut [f64],
    y: &mut [f64],
    z: &mut [f64],
    panels: &PanelColumns,
    out: &mut [f64],
    shape: &NodeColumns,
) -> usize
    requires shape_of { ShapeOf (on_nodes shape.now panels.now) (on_panels x.old y.old z.old panels.now) }
    requires out_len { length out.old ≡ length x.old * length x.old }
    ensures { DoneUnder kind (on_panels x.old y.old z.old panels.now) (on_nodes shape.now panels.now) out.old
        result (on_panels x.new y.new z.new panels.now) out.new }
{
    let n = x.len();
    let mut marks = [false; mesh::MAX_NODES];
    mark_changed_rings(&mut marks, &lent_nodes(x, y, z), panels, shape);
    let r = node_ring::count_marks(&marks, n);
    set_nodes(x, y, z, shape);
    let mesh = TriangleMeshView {
        nodes: NodeColumns { x, y, z },
        panels: *panels,
    };
    inductance::renew(kind, &mesh, &marks, out);
    node_ring::named_cells(n, r)
}

// The shape at place p of a store for n nodes.
fn shape_at<'a>(store: &ShapeStore<'a>, n: usize, p: usize) -> NodeColumns<'a>
    requires x_room { p * n + n ≤ length store.now.shapes.x.now }
    requires y_room { p * n + n ≤ length store.now.shapes.y.now }
    requires z_room { p * n + n ≤ length store.now.shapes.z.now }
    ensures columns { let s = store.now.shapes in
        viewed_nodes result ≡ nodes_of (stretch s.x.now n p) (stretch s.y.now n p) (stretch s.z.now n p) }
    ensures numbers { Coordinates (viewed_nodes result) }
{
    let x = lists::stretch(store.shapes.x, n, p);
    let y = lists::stretch(store.shapes.y, n, p);
    let z = lists::stretch(store.shapes.z, n, p);
    NodeColumns { x, y, z }
}

// The tests of a return under a rule that there is; the answer is the place of the named shape.
fn check_return(
    mesh: &TriangleMeshView,
    size: usize,
    store: &ShapeStore,
    name: &[u8; 8],
) -> Result<usize, Refusal>
    ensures number { number_of result ≡ Spec.shape_refusal (viewed mesh.now) (viewed_store store.now) name.now size }
    ensures place { IfOk result (λ p. p ≡ place_of (viewed_store store.now) name.now) }
{
    mesh::check_mesh(mesh)?;
    let n = mesh.nnode();
    if store.differs(n) | (size != n * n) {
        return Err(Refusal::Output);
    }
    let Some(p) = shape_store::find_name(store.marks, store.names, name) else {
        return Err(Refusal::UnknownName);
    };
    let shape = TriangleMeshView {
        nodes: shape_at(store, n, p),
        panels: mesh.panels,
    };
    mesh::check_mesh(&shape)?;
    Ok(p)
}

// The return under a rule that there is; its answer is the count of the renewed cells.
fn return_under(
    kind: QuadratureKind,
    x: &mut [f64],
    y: &mut [f64],
    z: &mut [f64],
    panels: &PanelColumns,
    out: &mut [f64],
    store: &ShapeStore,
    name: &[u8; 8],
) -> Result<usize, Refusal>
    ensures { ReturnedUnder kind (screen_on x y z panels.now out) (viewed_store store.now) name.now (number_of result) (value_or 0 result) }
{
    let mesh = TriangleMeshView {
        nodes: NodeColumns { x, y, z },
        panels: *panels,
    };
    let p = check_return(&mesh, out.len(), store, name)?;
    let shape = shape_at(store, x.len(), p);
    let count = restore(kind, x, y, z, panels, out, &shape);
    Ok(count)
}

// The return to the shape of a name, on any mesh, out, store, name and rule number.
pub fn return_shape(
    rule: u32,
    x: &mut [f64],
    y: &mut [f64],
    z: &mut [f64],
    panels: &PanelColumns,
    out: &mut [f64],
    store: &ShapeStore,
    name: &[u8; 8],
) -> Result<usize, Refusal>
    ensures { ReturnedBy rule (screen_on x y z panels.now out) (viewed_store store.now) name.now (number_of result) (value_or 0 result) }
{
    let Some(kind) = tri::quadrature::quadrature_rule(rule) else {
        return Err(Refusal::NoSuchChoice);
    };
    return_under(kind, x, y, z, panels, out, store, name)
}
