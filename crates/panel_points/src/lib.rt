// The rows of a quadrature rule and its points on a panel, in seven places for any rule, and sums over them. Each coordinate of the points
// is an array of its own, so that the compiler lays out a step over all of them in lanes.
#![tactic(auto)]

ghost use Rattle.std.specs.Prelude.{◌≡◌, ◌<◌, ◌≤◌};
ghost use Rattle.lists.specs.Sums.{sum_to};
ghost use Rattle.binary64.specs.Binary64.{at, ◌⊗◌};
ghost use Rattle.panel_points.specs.Points as Spec;
ghost use Rattle.tri.specs.Quadrature.{max_points};

use std::array;
use tri::quadrature::{MAX_POINTS, QuadratureKind, quadrature_count, quadrature_row};

// ---- a triangle as the C interface lends it, nine numbers
#[tactic(auto, unfolding(crate::specs::Points::coordinates))]
pub fn coordinates(t: [[f64; 3]; 3]) -> [f64; 9]
    ensures { result ≡ Spec.coordinates t }
{
    [
        t[0][0], t[0][1], t[0][2], t[1][0], t[1][1], t[1][2], t[2][0], t[2][1], t[2][2],
    ]
}

#[tactic(auto, unfolding(crate::specs::Points::triangle))]
pub fn triangle(v: [f64; 9]) -> [[f64; 3]; 3]
    ensures { result ≡ Spec.triangle v }
{
    [[v[0], v[1], v[2]], [v[3], v[4], v[5]], [v[6], v[7], v[8]]]
}

// ---- the rows of a rule, seven places for any rule
// Of each row the shares of the three corners, 1 - u - v, u and v, and the weight; +0 behind the rule's count.
#[derive(Clone, Copy)]
pub struct Rows {
    pub first: [f64; MAX_POINTS],
    pub second: [f64; MAX_POINTS],
    pub third: [f64; MAX_POINTS],
    pub weight: [f64; MAX_POINTS],
}

// Reads the rule's table, so it is called once a source and not once a pair.
pub fn rows_of(kind: QuadratureKind) -> Rows
    ensures { result ≡ Spec.rows_of kind }
{
    let count = quadrature_count(kind);
    let mut first = [0.0; MAX_POINTS];
    let mut second = [0.0; MAX_POINTS];
    let mut third = [0.0; MAX_POINTS];
    let mut weight = [0.0; MAX_POINTS];
    // A loop: one read of the table fills a place of all four arrays.
    for k in 0..count {
        let q = quadrature_row(kind, k);
        first[k] = 1.0 - q[1] - q[2];
        second[k] = q[1];
        third[k] = q[2];
        weight[k] = q[0];
    }
    Rows {
        first,
        second,
        third,
        weight,
    }
}

// ---- the points of a rule on a panel
// All seven places in steps of fixed length; what stands behind the rule's count is never read.
#[derive(Clone, Copy)]
pub struct Points {
    pub x: [f64; MAX_POINTS],
    pub y: [f64; MAX_POINTS],
    pub z: [f64; MAX_POINTS],
}

impl Points {
    pub fn point(&self, k: usize) -> [f64; 3]
        requires { k < max_points }
        ensures { result ≡ Spec.point self.now k }
    {
        [self.x[k], self.y[k], self.z[k]]
    }
}

#[derive(Clone, Copy)]
pub struct WeightedPoints {
    pub points: Points,
    pub weight: [f64; MAX_POINTS],
}

// One coordinate of each point, of that coordinate of the corners.
fn along(rows: &Rows, a: f64, b: f64, c: f64) -> [f64; MAX_POINTS]
    ensures { result ≡ Spec.along rows.now a b c }
{
    array::from_fn(|k| a * rows.first[k] + b * rows.second[k] + c * rows.third[k])
}

// The weight of each point, of the panel's area.
fn weights(rows: &Rows, area: f64) -> [f64; MAX_POINTS]
    ensures { result ≡ Spec.weights rows.now area }
{
    array::from_fn(|k| rows.weight[k] * area)
}

// The points of a panel with these corners and this area.
#[tactic(auto, unfolding(crate::specs::Points::points_by))]
pub fn points_by(rows: &Rows, t: [[f64; 3]; 3], area: f64) -> WeightedPoints
    ensures { result ≡ Spec.points_by rows.now t area }
{
    let points = Points {
        x: along(rows, t[0][0], t[1][0], t[2][0]),
        y: along(rows, t[0][1], t[1][1], t[2][1]),
        z: along(rows, t[0][2], t[1][2], t[2][2]),
    };
    WeightedPoints {
        points,
        weight: weights(rows, area),
    }
}

// ---- sums over the places
// The sum of w[j] * held[j]. By an index: a count, two arrays and a sum in this order are no plainer as an iterator's chain.
pub fn weighted(count: usize, w: [f64; MAX_POINTS], held: [f64; MAX_POINTS]) -> f64
    requires { count ≤ max_points }
    ensures { result ≡ sum_to (λ j. at w j ⊗ at held j) count }
{
    let mut out = 0.0;
    for j in 0..count {
        out += w[j] * held[j];
    }
    out
}
