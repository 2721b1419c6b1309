// src/mesh/triangle3d.rs: the test of a triangle mesh in column form, with document 01's refusals.
#![tactic(auto)]

ghost use Rattle.std.specs.Prelude.{◌≡◌, ◌<◌, length};
ghost use Rattle.lists.specs.Counting.{triple};
ghost use Rattle.mesh.specs.Columns.{viewed, viewed_panels};
ghost use Rattle.mesh.specs.Conditions.{NodeColumnsAlike, PanelColumnsAlike, NoneMissing, Tested};
ghost use Rattle.mesh.specs.Mesh as Spec;
ghost use Rattle.mesh.specs.Mesh.{max_nodes, max_panels};
ghost use Rattle.refusal.specs.Outcome.{number_of, value_or};

pub mod columns;

use columns::{PanelColumns, TriangleMeshView};
use refusal::Refusal;

// The limits of every call but the program `density`.
pub const MAX_NODES: usize = 4096;

pub const MAX_PANELS: usize = 8192;

// 1 and 2: three lengths that are not one.
#[tactic(auto, unfolding(crate::specs::Mesh::lengths_differ))]
pub fn lengths_differ(a: usize, b: usize, c: usize) -> bool
    ensures { result ≡ Spec.lengths_differ a b c }
{
    (b != a) | (c != a)
}

// 11
#[tactic(auto, unfolding(crate::specs::Mesh::passes_limits))]
pub fn passes_limits(nodes: usize, panels: usize, n: usize, p: usize) -> bool
    ensures { result ≡ Spec.passes_limits nodes panels n p }
{
    (nodes < n) | (panels < p)
}

// 3, of one panel
#[tactic(auto, unfolding(crate::specs::Mesh::misses_node, lists::specs::Counting::any_of))]
pub fn misses_node(n: usize, indices: [usize; 3]) -> bool
    ensures { result ≡ Spec.misses_node n (triple indices) }
{
    (n <= indices[0]) | ((n <= indices[1]) | (n <= indices[2]))
}

// 3, over all panels
fn some_misses_node(n: usize, panels: &PanelColumns) -> bool
    requires { PanelColumnsAlike (viewed_panels panels.now) }
    ensures { result ≡ Spec.some_misses n (viewed_panels panels.now) }
{
    for i in 0..panels.t0.len() {
        if misses_node(n, panels.triangle_indices(i)) {
            return true;
        }
    }
    false
}

// 4, of one panel
#[tactic(auto, unfolding(crate::specs::Mesh::is_zero_area))]
pub fn is_zero_area(t: [[f64; 3]; 3]) -> bool
    ensures { result ≡ Spec.is_zero_area t }
{
    tri::mapping::area(t) < 1e-14
}

// 4, over all panels
fn some_zero_area(mesh: &TriangleMeshView) -> bool
    requires node_columns_alike { NodeColumnsAlike (viewed mesh.now) }
    requires panel_columns_alike { PanelColumnsAlike (viewed mesh.now) }
    requires none_missing { NoneMissing (viewed mesh.now) }
    ensures { result ≡ Spec.some_zero_area (viewed mesh.now) }
{
    for i in 0..mesh.ntri() {
        if is_zero_area(mesh.triangle_nodes(i)) {
            return true;
        }
    }
    false
}

// A mesh under the limits of a call.
#[tactic(auto, unfolding(crate::specs::Mesh::mesh_refusal, crate::specs::Mesh::mesh_checks, refusal::specs::Checks::first))]
pub fn check_mesh_within(
    nodes: usize,
    panels: usize,
    mesh: &TriangleMeshView,
) -> Result<(), Refusal>
    ensures { number_of result ≡ Spec.mesh_refusal nodes panels (viewed mesh.now) }
{
    if lengths_differ(mesh.nodes.x.len(), mesh.nodes.y.len(), mesh.nodes.z.len()) {
        return Err(Refusal::NodeColumns);
    }
    if lengths_differ(
        mesh.panels.t0.len(),
        mesh.panels.t1.len(),
        mesh.panels.t2.len(),
    ) {
        return Err(Refusal::PanelColumns);
    }
    if passes_limits(nodes, panels, mesh.nnode(), mesh.ntri()) {
        return Err(Refusal::TooLarge);
    }
    if some_misses_node(mesh.nnode(), &mesh.panels) {
        return Err(Refusal::MissingNode);
    }
    if some_zero_area(mesh) {
        return Err(Refusal::ZeroArea);
    }
    Ok(())
}

// A mesh under document 01's limits.
pub fn check_mesh(mesh: &TriangleMeshView) -> Result<(), Refusal>
    ensures { number_of result ≡ Spec.mesh_refusal max_nodes max_panels (viewed mesh.now) }
{
    check_mesh_within(MAX_NODES, MAX_PANELS, mesh)
}

// The square of the distance of two points: nothing fused.
#[tactic(auto, unfolding(crate::specs::Mesh::edge_sq))]
fn edge_sq(a: [f64; 3], b: [f64; 3]) -> f64
    ensures { result ≡ Spec.edge_sq a b }
{
    let dx = a[0] - b[0];
    let dy = a[1] - b[1];
    let dz = a[2] - b[2];
    dx * dx + dy * dy + dz * dz
}

// 1 for equal edges, towards 0 for a sliver.
#[tactic(auto, unfolding(crate::specs::Mesh::quality))]
pub fn triangle_quality(t: [[f64; 3]; 3]) -> f64
    ensures { result ≡ Spec.quality t }
{
    let area = tri::mapping::area(t);
    let edge_sum = edge_sq(t[0], t[1]) + edge_sq(t[1], t[2]) + edge_sq(t[2], t[0]);
    4.0 * ieee754::sqrt(3.0) * area / edge_sum
}

#[tactic(auto, unfolding(crate::specs::Mesh::is_poor))]
fn is_poor(t: [[f64; 3]; 3]) -> bool
    ensures { result ≡ Spec.is_poor t }
{
    triangle_quality(t) < 1e-3
}

// The number of poor panels: the original warns about each.
fn count_poor(mesh: &TriangleMeshView) -> usize
    requires node_columns_alike { NodeColumnsAlike (viewed mesh.now) }
    requires panel_columns_alike { PanelColumnsAlike (viewed mesh.now) }
    requires none_missing { NoneMissing (viewed mesh.now) }
    ensures { result ≡ Spec.poor_panels (viewed mesh.now) }
{
    let mut poor: usize = 0;
    for i in 0..mesh.ntri() {
        if is_poor(mesh.triangle_nodes(i)) {
            poor += 1;
        }
    }
    poor
}

// The mesh test, on any six columns: the count of poor panels.
#[tactic(auto, unfolding(crate::specs::Mesh::tested_count))]
pub fn validate_triangle_mesh_geometry(mesh: &TriangleMeshView) -> Result<usize, Refusal>
    ensures { Tested (viewed mesh.now) (number_of result) (value_or 0 result) }
{
    check_mesh(mesh)?;
    Ok(count_poor(mesh))
}
