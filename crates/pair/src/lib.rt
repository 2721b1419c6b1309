// The block of two panels, from numbers that are worked out once a panel.
#![tactic(auto)]

ghost use Rattle.std.specs.Prelude.{◌≡◌};
ghost use Rattle.coupling.specs.Block.{mutual_inductance_block};
ghost use Rattle.coupling.specs.Coupling.{geometric_coupling};
ghost use Rattle.pair.specs.Pair as Spec;

use boundary_element::current_density::triangle_basis_current_densities;
use coupling::block::block_from_coupling;
use coupling::coupling::{
    COUPLING_NEAR_SUBDIVISION_DEPTH, triangle_geometric_coupling_exact_fixed,
};
use panel_distance::distance::{Bounds, triangle_max_edge_squared};
use panel_points::{Rows, WeightedPoints, points_by, rows_of};
use potential::UniformTriangle;
use tri::quadrature::{QuadratureKind, quadrature_count};

// A panel's own numbers; edge is the longest edge squared.
#[derive(Clone, Copy)]
pub struct Panel {
    pub corners: [[f64; 3]; 3],
    pub area: f64,
    pub edge: f64,
    pub bounds: Bounds,
    pub densities: [[f64; 3]; 3],
}

// A panel with what it needs besides as the source of a row of targets.
#[derive(Clone, Copy)]
pub struct Source {
    pub panel: Panel,
    pub rows: Rows,
    pub points: WeightedPoints,
    pub uniform: UniformTriangle,
}

// ---- worked out once a panel
#[tactic(auto, unfolding(crate::specs::Pair::panel_numbers))]
pub fn panel_numbers(t: [[f64; 3]; 3]) -> Panel
    ensures { result ≡ Spec.panel_numbers t }
{
    Panel {
        corners: t,
        area: tri::mapping::area(t),
        edge: triangle_max_edge_squared(t),
        bounds: Bounds::of(t),
        densities: triangle_basis_current_densities(t),
    }
}

#[tactic(auto, unfolding(crate::specs::Pair::source_numbers))]
pub fn source_numbers(kind: QuadratureKind, p: Panel) -> Source
    ensures { result ≡ Spec.source_numbers kind p }
{
    let rows = rows_of(kind);
    Source {
        panel: p,
        rows,
        points: points_by(&rows, p.corners, p.area),
        uniform: UniformTriangle::new(p.corners),
    }
}

// ---- worked out once a pair
// geometric_coupling of the corners of two panels.
fn pair_coupling(kind: QuadratureKind, s: Source, t: Panel) -> f64
    requires known_source { Spec.KnownSource kind s }
    requires known { Spec.Known t }
    ensures { result ≡ geometric_coupling kind s.panel.corners t.corners }
{
    let limit = ieee754::max(s.panel.edge, t.edge);
    let apart = s.panel.bounds.distance_squared(t.bounds);
    if pair_far_test::is_far(s.panel.corners, t.corners, limit, apart) {
        let points = points_by(&s.rows, t.corners, t.area);
        return pair_far_rule::far_coupling(quadrature_count(kind), &s.points, &points);
    }
    triangle_geometric_coupling_exact_fixed(s.uniform, t.corners, COUPLING_NEAR_SUBDIVISION_DEPTH)
}

// mutual_inductance_block of the corners of two panels.
pub fn pair_block(kind: QuadratureKind, s: Source, t: Panel) -> [f64; 9]
    requires known_source { Spec.KnownSource kind s }
    requires known { Spec.Known t }
    ensures { result ≡ mutual_inductance_block kind s.panel.corners t.corners }
{
    block_from_coupling(pair_coupling(kind, s, t), s.panel.densities, t.densities)
}
