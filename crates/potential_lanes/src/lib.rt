// The potential at seven points at once, one step of the work for all points before the next, so that the compiler can lay out
// the squared distances, the estimates of the roots and the elementary functions in lanes. Each number is that of one point.
#![tactic(auto)]

ghost use Rattle.std.specs.Prelude.{◌≡◌, ℕ, ◌<◌, ◌+◌};
ghost use Rattle.binary64.specs.Binary64.{at, two, ◌⊗◌, ◌⊕◌, ◌⊖◌, ◌⊘◌};
ghost use Rattle.ieee754.specs.Ieee754.{sqrt};
ghost use Rattle.square_root.specs.Estimate.{root_estimate};
ghost use Rattle.elementary.specs.Elementary.{asinh};
ghost use Rattle.math.specs.Math.{norm3, sub3, dot3, cross3};
ghost use Rattle.length_lanes.specs.Length.{square_at};
ghost use Rattle.panel_points.specs.Points.{point};
ghost use Rattle.potential.specs.Potential as Potential;
ghost use Rattle.potential_lanes.specs.Seven as Spec;
ghost use Rattle.tri.specs.Quadrature.{max_points};

use panel_points::Points;
use potential::{UniformTriangle, integral_on_line};
use std::array;
use tri::quadrature::MAX_POINTS;

// The distance of each point from the plane through corner with that normal.
fn distances_from_plane(corner: [f64; 3], normal: [f64; 3], points: &Points) -> [f64; MAX_POINTS]
    ensures { (i : ℕ) → i < max_points → at result i ≡ Spec.from_plane corner normal (point points.now i) }
{
    array::from_fn(|i| math::dot3(math::sub3(points.point(i), corner), normal))
}

// The place of node along v, of each point.
fn places(node: [f64; 3], v: [f64; 3], points: &Points) -> [f64; MAX_POINTS]
    ensures { (i : ℕ) → i < max_points → at result i ≡ Spec.place node v (point points.now i) }
{
    array::from_fn(|i| math::dot3(math::sub3(node, points.point(i)), v))
}

// h * h + d * d
fn squares(h: [f64; MAX_POINTS], d: [f64; MAX_POINTS]) -> [f64; MAX_POINTS]
    ensures { (i : ℕ) → i < max_points → at result i ≡ Spec.transverse_squared (at h i) (at d i) }
{
    array::from_fn(|i| ieee754::square_add(h[i], d[i] * d[i]))
}

fn estimates(q: [f64; MAX_POINTS]) -> [f64; MAX_POINTS]
    ensures { (i : ℕ) → i < max_points → at result i ≡ root_estimate (at q i) }
{
    array::from_fn(|i| square_root::root_estimate(q[i]))
}

// The roots, whatever the estimates g are.
fn roots(q: [f64; MAX_POINTS], g: [f64; MAX_POINTS]) -> [f64; MAX_POINTS]
    ensures { (i : ℕ) → i < max_points → at result i ≡ sqrt (at q i) }
{
    array::from_fn(|i| square_root::checked(q[i], g[i]))
}

// The two ends of an edge over the distance from its line: seven times the end, seven times the start. The extent is its length.
fn slopes(start: [f64; MAX_POINTS], extent: f64, transverse: [f64; MAX_POINTS]) -> [f64; 14]
    ensures { (i : ℕ) → i < max_points → (at result i ≡ (at start i ⊕ extent) ⊘ at transverse i) × (at result (i + 7) ≡ at start i ⊘ at transverse i) }
{
    // A loop: each turn writes two places, and array::from_fn would have to choose between them at every one.
    let mut out = [0.0; 14];
    for i in 0..MAX_POINTS {
        out[i] = (start[i] + extent) / transverse[i];
        out[i + 7] = start[i] / transverse[i];
    }
    out
}

// The integral of 1/distance over an edge, where upper and lower are the arc sines of its two ends.
#[tactic(auto, unfolding(potential::specs::Potential::line_integral))]
fn integral(start: f64, end: f64, transverse: f64, upper: f64, lower: f64) -> f64
    requires { (upper ≡ asinh (end ⊘ transverse)) × (lower ≡ asinh (start ⊘ transverse)) }
    ensures { result ≡ Potential.line_integral start end transverse }
{
    if transverse > 0.0 {
        return upper - lower;
    }
    integral_on_line(start, end)
}

fn integrals(
    start: [f64; MAX_POINTS],
    extent: f64,
    transverse: [f64; MAX_POINTS],
    s: [f64; 14],
) -> [f64; MAX_POINTS]
    requires { (i : ℕ) → i < max_points
        → (at s i ≡ asinh ((at start i ⊕ extent) ⊘ at transverse i)) × (at s (i + 7) ≡ asinh (at start i ⊘ at transverse i)) }
    ensures { (i : ℕ) → i < max_points → at result i ≡ Potential.line_integral (at start i) (at start i ⊕ extent) (at transverse i) }
{
    array::from_fn(|i| integral(start[i], start[i] + extent, transverse[i], s[i], s[i + 7]))
}

// The edge's part added to value. Where h log(h) has the limit 0, nothing is added.
#[tactic(auto, unfolding(crate::specs::Seven::add_part))]
fn add_part(value: f64, h: f64, d: f64, integral: f64) -> f64
    ensures { result ≡ Spec.add_part value h d integral }
{
    if (h == 0.0) & (d == 0.0) {
        return value;
    }
    value + h * integral
}

fn add_parts(
    value: [f64; MAX_POINTS],
    h: [f64; MAX_POINTS],
    d: [f64; MAX_POINTS],
    integral: [f64; MAX_POINTS],
) -> [f64; MAX_POINTS]
    ensures { (i : ℕ) → i < max_points → at result i ≡ Spec.add_part (at value i) (at h i) (at d i) (at integral i) }
{
    array::from_fn(|i| add_part(value[i], h[i], d[i], integral[i]))
}

// One edge's part at each point, added to value.
#[tactic(auto, unfolding(potential::specs::Potential::add_edge, potential::specs::Potential::edge_integral, potential::specs::Potential::edge_integral_from, crate::specs::Seven::add_part))]
fn add_edge(
    p: &UniformTriangle,
    edge: usize,
    points: &Points,
    d: [f64; MAX_POINTS],
    value: [f64; MAX_POINTS],
) -> [f64; MAX_POINTS]
    requires { edge < 3 }
    ensures { (i : ℕ) → i < max_points → at result i ≡ Potential.add_edge p.now edge (point points.now i) (at d i) (at value i) }
{
    let h = places(p.nodes[edge], p.edge_outward[edge], points);
    let start = places(p.nodes[edge], p.edge_tangent[edge], points);
    let extent = p.edge_length[edge];
    let q = squares(h, d);
    let transverse = roots(q, estimates(q));
    let s = elementary_lanes::asinhs(slopes(start, extent, transverse));
    add_parts(value, h, d, integrals(start, extent, transverse, s))
}

// ---- the solid angle's part

fn differences(x: [f64; MAX_POINTS], c: f64) -> [f64; MAX_POINTS]
    ensures { (i : ℕ) → i < max_points → at result i ≡ at x i ⊖ c }
{
    array::from_fn(|i| x[i] - c)
}

// The vector from corner to each point.
fn vectors_from(corner: [f64; 3], points: &Points) -> Points
    ensures { (i : ℕ) → i < max_points → point result i ≡ sub3 (point points.now i) corner }
{
    Points {
        x: differences(points.x, corner[0]),
        y: differences(points.y, corner[1]),
        z: differences(points.z, corner[2]),
    }
}

// The squared lengths of the vectors, or NaN.
fn square_lanes(v: &Points) -> [f64; MAX_POINTS]
    ensures by_index { (i : ℕ) → i < max_points → at result i ≡ square_at v.now.x v.now.y v.now.z i }
    ensures squares_of { (i : ℕ) → i < max_points → Spec.SquareOf (point v.now i) (at result i) }
{
    array::from_fn(|i| length_lanes::square_lane(v.x[i], v.y[i], v.z[i]))
}

// The lengths of the vectors.
fn lengths(v: &Points) -> [f64; MAX_POINTS]
    ensures { (i : ℕ) → i < max_points → at result i ≡ norm3 (point v.now i) }
{
    let s = square_lanes(v);
    let g = estimates(s);
    array::from_fn(|i| length_lanes::length_of(v.x[i], v.y[i], v.z[i], s[i], g[i]))
}

// The triple product of the vectors from the three corners to each point.
fn triple_products(a: &Points, b: &Points, c: &Points) -> [f64; MAX_POINTS]
    ensures { (i : ℕ) → i < max_points → at result i ≡ dot3 (point a.now i) (cross3 (point b.now i) (point c.now i)) }
{
    array::from_fn(|i| math::dot3(a.point(i), math::cross3(b.point(i), c.point(i))))
}

fn inner_products(a: &Points, b: &Points) -> [f64; MAX_POINTS]
    ensures { (i : ℕ) → i < max_points → at result i ≡ dot3 (point a.now i) (point b.now i) }
{
    array::from_fn(|i| math::dot3(a.point(i), b.point(i)))
}

// The denominator of the tangent of half the solid angle, of the lengths of three vectors and their inner products.
fn denominators_of(
    na: [f64; MAX_POINTS],
    nb: [f64; MAX_POINTS],
    nc: [f64; MAX_POINTS],
    ab: [f64; MAX_POINTS],
    bc: [f64; MAX_POINTS],
    ca: [f64; MAX_POINTS],
) -> [f64; MAX_POINTS]
    ensures { (i : ℕ) → i < max_points
        → at result i ≡ Spec.denominator (at na i) (at nb i) (at nc i) (at ab i) (at bc i) (at ca i) }
{
    array::from_fn(|i| na[i] * nb[i] * nc[i] + ab[i] * nc[i] + bc[i] * na[i] + ca[i] * nb[i])
}

// Of the vectors from the three corners to each point.
fn denominators(a: &Points, b: &Points, c: &Points) -> [f64; MAX_POINTS]
    ensures { (i : ℕ) → i < max_points → at result i ≡ Spec.denominator_at (point a.now i) (point b.now i) (point c.now i) }
{
    denominators_of(
        lengths(a),
        lengths(b),
        lengths(c),
        inner_products(a, b),
        inner_products(b, c),
        inner_products(c, a),
    )
}

// value - d * (2 * angle), where angle is half the solid angle.
fn less_doubled(
    value: [f64; MAX_POINTS],
    d: [f64; MAX_POINTS],
    angle: [f64; MAX_POINTS],
) -> [f64; MAX_POINTS]
    ensures { (i : ℕ) → i < max_points → at result i ≡ at value i ⊖ at d i ⊗ (two ⊗ at angle i) }
{
    array::from_fn(|i| value[i] - d[i] * (2.0 * angle[i]))
}

// The solid angle's part at each point, taken from value. Where all points are in the plane it is mostly left out, point by point.
fn less_solid_angles(
    p: &UniformTriangle,
    points: &Points,
    d: [f64; MAX_POINTS],
    value: [f64; MAX_POINTS],
) -> [f64; MAX_POINTS]
    ensures { (i : ℕ) → i < max_points → at result i ≡ Potential.less_solid_angle p.now (point points.now i) (at d i) (at value i) }
{
    if d.iter().any(|distance| *distance != 0.0) {
        let a = vectors_from(p.nodes[0], points);
        let b = vectors_from(p.nodes[1], points);
        let c = vectors_from(p.nodes[2], points);
        let top = triple_products(&a, &b, &c);
        let bottom = denominators(&a, &b, &c);
        return less_doubled(value, d, elementary_lanes::atan2s(top, bottom));
    }
    array::from_fn(|i| p.less_solid_angle(points.point(i), d[i], value[i]))
}

// The potential at each of seven points.
pub fn scalar_potentials(p: UniformTriangle, points: &Points) -> [f64; MAX_POINTS]
    ensures { (i : ℕ) → i < max_points → at result i ≡ Potential.scalar_potential p (point points.now i) }
{
    let d = distances_from_plane(p.nodes[0], p.normal, points);
    let first = add_edge(&p, 0, points, d, [0.0; MAX_POINTS]);
    let second = add_edge(&p, 1, points, d, first);
    let value = add_edge(&p, 2, points, d, second);
    less_solid_angles(&p, points, d, value)
}
