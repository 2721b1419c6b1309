// What a move of one node needs before anything is written: its number, tested on the moved mesh, and the
// ring of the node, marked and counted; for a return to a shape the rings of all nodes that change.
#![tactic(auto)]

ghost use Rattle.std.specs.Prelude.{◌≡◌, ◌||◌, ℕ, ◌<◌, ◌≤◌, ◌*◌, ◌-◌, length, slice_set, true};
ghost use Rattle.refusal.specs.Outcome.{number_of};
ghost use Rattle.lists.specs.Counting.{any_of, triple, count_below};
ghost use Rattle.mesh.specs.Mesh.{node, ntri, triangle_nodes, some_zero_area, max_nodes};
ghost use Rattle.mesh.specs.Columns.{viewed, viewed_nodes, viewed_panels};
ghost use Rattle.mesh.specs.Conditions.{NodeColumnsAlike, PanelColumnsAlike, Below, NoneMissing};
ghost use Rattle.scatter.specs.Entries.{same};
ghost use Rattle.scatter.specs.Renewal.{marked, AllBelow};
ghost use Rattle.scatter.specs.Flags.{IndicesBelow};
ghost use Rattle.node_ring.specs.Place.{moved_to, refusal_at};
ghost use Rattle.node_ring.specs.Ring.{MarksPanel, MarksRing};

use mesh::columns::{NodeColumns, PanelColumns, TriangleMeshView};
use refusal::Refusal;

// The place of node k in the moved mesh, read without writing it.
fn node_moved(nodes: &NodeColumns, v: usize, place: [f64; 3], k: usize) -> [f64; 3]
    requires { (k < length nodes.now.x.now) × (k < length nodes.now.y.now) × (k < length nodes.now.z.now) }
    ensures { result ≡ node (moved_to (viewed_nodes nodes.now) v place) k }
{
    if k == v {
        return place;
    }
    nodes.node(k)
}

// The corners of panel i in the moved mesh.
fn triangle_nodes_moved(
    mesh: &TriangleMeshView,
    v: usize,
    place: [f64; 3],
    i: usize,
) -> [[f64; 3]; 3]
    requires node_columns_alike { NodeColumnsAlike (viewed mesh.now) }
    requires panel_columns_alike { PanelColumnsAlike (viewed mesh.now) }
    requires i_in_bounds { (i < ntri (viewed mesh.now)) × Below (viewed mesh.now) i }
    ensures { result ≡ triangle_nodes (moved_to (viewed mesh.now) v place) i }
{
    let [a, b, c] = mesh.panels.triangle_indices(i);
    [
        node_moved(&mesh.nodes, v, place, a),
        node_moved(&mesh.nodes, v, place, b),
        node_moved(&mesh.nodes, v, place, c),
    ]
}

// 4 on the moved mesh.
fn some_zero_area_moved(mesh: &TriangleMeshView, v: usize, place: [f64; 3]) -> bool
    requires node_columns_alike { NodeColumnsAlike (viewed mesh.now) }
    requires panel_columns_alike { PanelColumnsAlike (viewed mesh.now) }
    requires none_missing { NoneMissing (viewed mesh.now) }
    ensures { result ≡ some_zero_area (moved_to (viewed mesh.now) v place) }
{
    for i in 0..mesh.ntri() {
        if mesh::is_zero_area(triangle_nodes_moved(mesh, v, place, i)) {
            return true;
        }
    }
    false
}

// The tests of a move under a rule that there is.
#[tactic(auto, using(mesh::proofs::Refusals::refused_by, mesh::proofs::Refusals::done_passed), unfolding(crate::specs::Place::place_refusal, refusal::specs::Checks::first))]
pub fn check_place(
    mesh: &TriangleMeshView,
    size: usize,
    v: usize,
    place: [f64; 3],
) -> Result<(), Refusal>
    ensures { number_of result ≡ refusal_at (viewed mesh.now) size v place }
{
    mesh::check_mesh(mesh)?;
    let n = mesh.nnode();
    if size != n * n {
        return Err(Refusal::Output);
    }
    if n <= v {
        return Err(Refusal::NoSuchNode);
    }
    if some_zero_area_moved(mesh, v, place) {
        return Err(Refusal::ZeroArea);
    }
    Ok(())
}

// One mark more. A function of its own: who works with the array then knows what it holds.
pub fn mark_node(marks: &mut [bool], v: usize)
    requires { v < length marks.old }
    ensures { marks.new ≡ slice_set marks.old v true }
{
    marks[v] = true;
}

// Three marks more.
fn mark_three(marks: &mut [bool], s: [usize; 3])
    requires { AllBelow (length marks.old) (triple s) }
    ensures { (a : ℕ) → marked marks.new a ≡ (marked marks.old a || any_of (same a) (triple s)) }
{
    marks[s[0]] = true;
    marks[s[1]] = true;
    marks[s[2]] = true;
}

// The nodes of a panel are marked if one of them is changed.
fn mark_touched(marks: &mut [bool], changed: &[bool], panel: [usize; 3])
    requires all_below { AllBelow (length marks.old) (triple panel) }
    requires all_below_2 { AllBelow (length changed.now) (triple panel) }
    ensures { MarksPanel (marked changed.now) (triple panel) marks.old marks.new }
{
    if scatter::touches(changed, panel) {
        mark_three(marks, panel);
    }
}

// The nodes of the rings of all changed nodes are marked.
pub fn mark_rings(marks: &mut [bool], changed: &[bool], panels: &PanelColumns)
    requires panel_columns_alike { PanelColumnsAlike (viewed_panels panels.now) }
    requires indices_below { IndicesBelow (length marks.old) (viewed_panels panels.now) }
    requires indices_below_2 { IndicesBelow (length changed.now) (viewed_panels panels.now) }
    ensures { MarksRing (viewed_panels panels.now) (marked changed.now) marks.old marks.new }
{
    for p in 0..panels.t0.len() {
        mark_touched(marks, changed, panels.triangle_indices(p));
    }
}

// How many of the first n nodes are marked.
pub fn count_marks(marks: &[bool], n: usize) -> usize
    requires { n ≤ length marks.now }
    ensures { result ≡ count_below (marked marks.now) n }
{
    marks[..n].iter().filter(|mark| **mark).count()
}

// The number of cells in the rows and columns of r nodes.
pub fn named_cells(n: usize, r: usize) -> usize
    requires { (n ≤ max_nodes) × (r ≤ n) }
    ensures { result ≡ 2 * n * r - r * r }
{
    let twice = 2 * n * r;
    twice - r * r
}
