// Whether two panels are far from each other, the cheap tests first.
#![tactic(auto)]

ghost use Rattle.std.specs.Prelude.{◌≡◌};
ghost use Rattle.boundary_element.specs.Identity.{triangles_identical};
ghost use Rattle.pair_far_test.specs.Which as Spec;

use boundary_element::identity::triangles_identical;
use panel_distance::distance::{point_triangle_distance_squared, segment_distance_squared};

// ---- whether two panels are one
// 2^-30, well above the tolerance of a match.
const WIDENESS: f64 = 9.31322574615478515625e-10;

#[tactic(auto, unfolding(crate::specs::Which::is_wide))]
fn is_wide(x: f64) -> bool
    ensures { result ≡ Spec.is_wide x }
{
    (x >= WIDENESS) | (x <= -WIDENESS)
}

// Whether a and b differ in some coordinate by so much that they cannot match.
#[tactic(auto, unfolding(crate::specs::Which::is_clear))]
fn is_clear(a: [f64; 3], b: [f64; 3]) -> bool
    ensures { result ≡ Spec.is_clear a b }
{
    is_wide(a[0] - b[0]) | (is_wide(a[1] - b[1]) | is_wide(a[2] - b[2]))
}

// Where the source's first corner is clear of every target corner no root has to be taken.
fn is_one(s: [[f64; 3]; 3], t: [[f64; 3]; 3]) -> bool
    ensures { result ≡ triangles_identical s t }
{
    let first = is_clear(s[0], t[0]);
    let second = is_clear(s[0], t[1]);
    let third = is_clear(s[0], t[2]);
    if first & (second & third) {
        return false;
    }
    triangles_identical(s, t)
}

// ---- the panels' distance, as far as the limit asks for it
// The least of a distance and those of the corners of s from t, or the first that is not above the limit.
#[tactic(auto, unfolding(crate::specs::Which::corners_until, crate::specs::Which::until))]
fn corners_until(limit: f64, d: f64, s: [[f64; 3]; 3], t: [[f64; 3]; 3]) -> f64
    ensures { result ≡ Spec.corners_until limit d s t }
{
    let d0 = ieee754::min(d, point_triangle_distance_squared(s[0], t));
    if d0 > limit {
        let d1 = ieee754::min(d0, point_triangle_distance_squared(s[1], t));
        if d1 > limit {
            return ieee754::min(d1, point_triangle_distance_squared(s[2], t));
        }
        return d1;
    }
    d0
}

// The same of the segment from p to q and the edges of t.
#[tactic(auto, unfolding(crate::specs::Which::edges_until, crate::specs::Which::until))]
fn edges_until(limit: f64, d: f64, p: [f64; 3], q: [f64; 3], t: [[f64; 3]; 3]) -> f64
    ensures { result ≡ Spec.edges_until limit d p q t }
{
    let d0 = ieee754::min(d, segment_distance_squared(p, q, t[0], t[1]));
    if d0 > limit {
        let d1 = ieee754::min(d0, segment_distance_squared(p, q, t[1], t[2]));
        if d1 > limit {
            return ieee754::min(d1, segment_distance_squared(p, q, t[2], t[0]));
        }
        return d1;
    }
    d0
}

// Whether the least of a distance and those of all pairs of edges is above the limit.
#[tactic(auto, unfolding(crate::specs::Which::edges_beyond))]
fn edges_beyond(limit: f64, d: f64, s: [[f64; 3]; 3], t: [[f64; 3]; 3]) -> bool
    ensures { result ≡ Spec.edges_beyond limit d s t }
{
    let a = edges_until(limit, d, s[0], s[1], t);
    if a > limit {
        let b = edges_until(limit, a, s[1], s[2], t);
        if b > limit {
            return edges_until(limit, b, s[2], s[0], t) > limit;
        }
    }
    false
}

// Whether the panels are further apart than the limit.
#[tactic(auto, unfolding(crate::specs::Which::beyond))]
fn is_beyond(limit: f64, s: [[f64; 3]; 3], t: [[f64; 3]; 3]) -> bool
    ensures { result ≡ Spec.beyond limit s t }
{
    let a = corners_until(limit, ieee754::infinity(), s, t);
    if a > limit {
        let b = corners_until(limit, a, t, s);
        if b > limit {
            return edges_beyond(limit, b, s, t);
        }
    }
    false
}

// ---- which rule
// The far rule holds where the boxes or the panels are further apart than the limit, unless the panels are one.
#[tactic(auto, unfolding(crate::specs::Which::far_beyond))]
pub fn is_far(s: [[f64; 3]; 3], t: [[f64; 3]; 3], limit: f64, apart: f64) -> bool
    ensures { result ≡ Spec.far_beyond s t limit apart }
{
    if apart > limit {
        return !is_one(s, t);
    }
    if is_beyond(limit, s, t) {
        return !is_one(s, t);
    }
    false
}
