// The geometric coupling of two triangles, the double surface integral of 1/distance, by the far or the near rule.
ghost use Rattle.std.specs.Prelude.{◌≡◌};
ghost use Rattle.coupling.specs.Coupling as Spec;

use panel_distance::bisection::longest_edge_bisection;
use panel_distance::distance::{
    triangle_aabb_distance_squared, triangle_distance_squared, triangle_max_edge_squared,
};
use panel_points::{points_by, rows_of, weighted};
use potential::UniformTriangle;
use potential_lanes::scalar_potentials;
use tri::mapping::{area, map_point};
use tri::quadrature::{QuadratureKind, quadrature_count, quadrature_row};

pub const COUPLING_NEAR_SUBDIVISION_DEPTH: usize = 2;

// ---- the far rule
// A row's part of the potential at obs.
#[tactic(auto, unfolding(crate::specs::Coupling::potential_row))]
fn potential_row(source: [[f64; 3]; 3], area: f64, obs: [f64; 3], q: [f64; 3]) -> f64
    ensures { result ≡ Spec.potential_row source area obs q }
{
    let src = map_point(source, q[1], q[2]);
    let dist = math::norm3(math::sub3(obs, src));
    q[0] * area / dist
}

// The potential at obs, by the points of a rule.
fn triangle_scalar_potential_regular(
    kind: QuadratureKind,
    source: [[f64; 3]; 3],
    obs: [f64; 3],
) -> f64
    ensures { result ≡ Spec.triangle_scalar_potential_regular kind source obs }
{
    let source_area = area(source);
    let mut out = 0.0;
    for k in 0..quadrature_count(kind) {
        out += potential_row(source, source_area, obs, quadrature_row(kind, k));
    }
    out
}

// A row's part of the directed coupling.
#[tactic(auto, unfolding(crate::specs::Coupling::integral_row))]
fn regular_row(
    kind: QuadratureKind,
    source: [[f64; 3]; 3],
    target: [[f64; 3]; 3],
    area: f64,
    q: [f64; 3],
) -> f64
    ensures { result ≡ Spec.integral_row target area (Spec.triangle_scalar_potential_regular kind source) q }
{
    let obs = map_point(target, q[1], q[2]);
    q[0] * area * triangle_scalar_potential_regular(kind, source, obs)
}

// From source to target: triangle_geometric_coupling_regular in the Rust.
pub fn geometric_coupling_regular(
    kind: QuadratureKind,
    source: [[f64; 3]; 3],
    target: [[f64; 3]; 3],
) -> f64
    ensures { result ≡ Spec.geometric_coupling_regular kind source target }
{
    let target_area = area(target);
    let mut out = 0.0;
    for k in 0..quadrature_count(kind) {
        out += regular_row(kind, source, target, target_area, quadrature_row(kind, k));
    }
    out
}

// Half the sum of the two directions.
#[tactic(auto, unfolding(crate::specs::Coupling::triangle_geometric_coupling_regular_symmetric))]
fn triangle_geometric_coupling_regular_symmetric(
    kind: QuadratureKind,
    source: [[f64; 3]; 3],
    target: [[f64; 3]; 3],
) -> f64
    ensures { result ≡ Spec.triangle_geometric_coupling_regular_symmetric kind source target }
{
    0.5 * (geometric_coupling_regular(kind, source, target)
        + geometric_coupling_regular(kind, target, source))
}

// ---- the near rule
// The potential at all points of the rule at once.
fn triangle_geometric_coupling_exact_directed(
    source: UniformTriangle,
    target: [[f64; 3]; 3],
    kind: QuadratureKind,
) -> f64
    ensures { result ≡ Spec.triangle_geometric_coupling_exact_directed source target kind }
{
    let places = points_by(&rows_of(kind), target, area(target));
    let potentials = scalar_potentials(source, &places.points);
    weighted(quadrature_count(kind), places.weight, potentials)
}

// The target halved depth times, each leaf by the rule of seven points.
pub fn triangle_geometric_coupling_exact_fixed(
    source: UniformTriangle,
    target: [[f64; 3]; 3],
    depth: usize,
) -> f64
    ensures { result ≡ Spec.triangle_geometric_coupling_exact_fixed source target depth }
{
    if depth == 0 {
        return triangle_geometric_coupling_exact_directed(
            source,
            target,
            QuadratureKind::Dunavant5,
        );
    }
    let children = longest_edge_bisection(target);
    triangle_geometric_coupling_exact_fixed(source, children[0], depth - 1)
        + triangle_geometric_coupling_exact_fixed(source, children[1], depth - 1)
}

// ---- which rule
// Whether the far rule holds; at equal distance it does not.
#[tactic(auto, unfolding(crate::specs::Coupling::is_far))]
pub fn is_far(source: [[f64; 3]; 3], target: [[f64; 3]; 3]) -> bool
    ensures { result ≡ Spec.is_far source target }
{
    if boundary_element::identity::triangles_identical(source, target) {
        return false;
    }
    let source_edge = triangle_max_edge_squared(source);
    let target_edge = triangle_max_edge_squared(target);
    let max_edge_squared = ieee754::max(source_edge, target_edge);
    if triangle_aabb_distance_squared(source, target) > max_edge_squared {
        return true;
    }
    triangle_distance_squared(source, target) > max_edge_squared
}

// triangle_geometric_coupling in the Rust.
#[tactic(auto, unfolding(crate::specs::Coupling::geometric_coupling))]
pub fn geometric_coupling(kind: QuadratureKind, source: [[f64; 3]; 3], target: [[f64; 3]; 3]) -> f64
    ensures { result ≡ Spec.geometric_coupling kind source target }
{
    if is_far(source, target) {
        return triangle_geometric_coupling_regular_symmetric(kind, source, target);
    }
    let record = UniformTriangle::new(source);
    triangle_geometric_coupling_exact_fixed(record, target, COUPLING_NEAR_SUBDIVISION_DEPTH)
}
