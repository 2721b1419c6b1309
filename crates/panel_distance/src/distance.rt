// Squared distances between points, segments, triangles and their boxes.
ghost use Rattle.std.specs.Prelude.{◌≡◌, ◌<◌};
ghost use Rattle.panel_distance.specs.Distance as Spec;

// The squared length of the vector from a to b.
#[tactic(auto, unfolding(crate::specs::Distance::distance_squared))]
pub fn distance_squared(a: [f64; 3], b: [f64; 3]) -> f64
    ensures { result ≡ Spec.distance_squared a b }
{
    math::norm_squared3(math::sub3(b, a))
}

#[tactic(auto, unfolding(crate::specs::Distance::point_triangle_distance_squared))]
pub fn point_triangle_distance_squared(point: [f64; 3], t: [[f64; 3]; 3]) -> f64
    ensures { result ≡ Spec.point_triangle_distance_squared point t }
{
    distance_squared(tri::tri3::closest_point(point, t), point)
}

// ---- two segments
// Where the lines come closest, along the first and kept on it.
#[tactic(auto, unfolding(crate::specs::Distance::line_parameter))]
fn line_parameter(a: f64, b: f64, c: f64, e: f64, f: f64) -> f64
    ensures { result ≡ Spec.line_parameter a b c e f }
{
    let denominator = a * e - b * b;
    if denominator > 0.0 {
        return ieee754::clamp((b * f - c * e) / denominator, 0.0, 1.0);
    }
    0.0
}

// The squared length of r + s * d1 - t * d2.
#[tactic(auto, unfolding(crate::specs::Distance::offset_squared))]
fn offset_squared(r: [f64; 3], d1: [f64; 3], d2: [f64; 3], s: f64, t: f64) -> f64
    ensures { result ≡ Spec.offset_squared r d1 d2 s t }
{
    math::norm_squared3([
        r[0] + s * d1[0] - t * d2[0],
        r[1] + s * d1[1] - t * d2[1],
        r[2] + s * d1[2] - t * d2[2],
    ])
}

// The same where t is kept on the second segment, with the s that goes with its end.
#[tactic(auto, unfolding(crate::specs::Distance::kept_offset_squared))]
fn kept_offset_squared(
    r: [f64; 3],
    d1: [f64; 3],
    d2: [f64; 3],
    a: f64,
    b: f64,
    c: f64,
    s: f64,
    t: f64,
) -> f64
    ensures { result ≡ Spec.kept_offset_squared r d1 d2 a b c s t }
{
    if t < 0.0 {
        return offset_squared(r, d1, d2, ieee754::clamp(-c / a, 0.0, 1.0), 0.0);
    }
    if t > 1.0 {
        return offset_squared(r, d1, d2, ieee754::clamp((b - c) / a, 0.0, 1.0), 1.0);
    }
    offset_squared(r, d1, d2, s, t)
}

#[tactic(auto, unfolding(crate::specs::Distance::segment_distance_squared))]
pub fn segment_distance_squared(p0: [f64; 3], p1: [f64; 3], q0: [f64; 3], q1: [f64; 3]) -> f64
    ensures { result ≡ Spec.segment_distance_squared p0 p1 q0 q1 }
{
    let d1 = math::sub3(p1, p0);
    let d2 = math::sub3(q1, q0);
    let r = math::sub3(p0, q0);
    let a = math::norm_squared3(d1);
    let e = math::norm_squared3(d2);
    let b = math::dot3(d1, d2);
    let c = math::dot3(d1, r);
    let f = math::dot3(d2, r);
    let s = line_parameter(a, b, c, e, f);
    let t = (b * s + f) / e;
    kept_offset_squared(r, d1, d2, a, b, c, s, t)
}

// ---- two triangles
// The least of a distance and those of the corners of s from t.
#[tactic(auto, unfolding(crate::specs::Distance::least_of_corners))]
fn least_of_corners(distance: f64, s: [[f64; 3]; 3], t: [[f64; 3]; 3]) -> f64
    ensures { result ≡ Spec.least_of_corners distance s t }
{
    let d0 = ieee754::min(distance, point_triangle_distance_squared(s[0], t));
    let d1 = ieee754::min(d0, point_triangle_distance_squared(s[1], t));
    ieee754::min(d1, point_triangle_distance_squared(s[2], t))
}

// The least of a distance and those of the segment from p0 to p1 from the edges of t.
#[tactic(auto, unfolding(crate::specs::Distance::least_of_edges))]
fn least_of_edges(distance: f64, p0: [f64; 3], p1: [f64; 3], t: [[f64; 3]; 3]) -> f64
    ensures { result ≡ Spec.least_of_edges distance p0 p1 t }
{
    let d0 = ieee754::min(distance, segment_distance_squared(p0, p1, t[0], t[1]));
    let d1 = ieee754::min(d0, segment_distance_squared(p0, p1, t[1], t[2]));
    ieee754::min(d1, segment_distance_squared(p0, p1, t[2], t[0]))
}

#[tactic(auto, unfolding(crate::specs::Distance::triangle_distance_squared))]
pub fn triangle_distance_squared(a: [[f64; 3]; 3], b: [[f64; 3]; 3]) -> f64
    ensures { result ≡ Spec.triangle_distance_squared a b }
{
    let of_a = least_of_corners(ieee754::infinity(), a, b);
    let of_b = least_of_corners(of_a, b, a);
    let edge0 = least_of_edges(of_b, a[0], a[1], b);
    let edge1 = least_of_edges(edge0, a[1], a[2], b);
    least_of_edges(edge1, a[2], a[0], b)
}

// ---- the boxes of two triangles
#[tactic(auto, unfolding(crate::specs::Distance::lowest))]
pub fn lowest(t: [[f64; 3]; 3], axis: usize) -> f64
    requires { axis < 3 }
    ensures { result ≡ Spec.lowest t axis }
{
    ieee754::min(ieee754::min(t[0][axis], t[1][axis]), t[2][axis])
}

#[tactic(auto, unfolding(crate::specs::Distance::highest))]
pub fn highest(t: [[f64; 3]; 3], axis: usize) -> f64
    requires { axis < 3 }
    ensures { result ≡ Spec.highest t axis }
{
    ieee754::max(ieee754::max(t[0][axis], t[1][axis]), t[2][axis])
}

// A triangle's box: its lowest and highest coordinate along each axis.
#[derive(Clone, Copy)]
pub struct Bounds {
    pub lo: [f64; 3],
    pub hi: [f64; 3],
}

impl Bounds {
    #[tactic(auto, unfolding(crate::specs::Distance::bounds))]
    pub fn of(t: [[f64; 3]; 3]) -> Self
        ensures { result ≡ Spec.bounds t }
    {
        Bounds {
            lo: [lowest(t, 0), lowest(t, 1), lowest(t, 2)],
            hi: [highest(t, 0), highest(t, 1), highest(t, 2)],
        }
    }

    // How far two boxes are apart along one axis.
    #[tactic(auto, unfolding(crate::specs::Distance::gap_between))]
    fn gap(self, other: Bounds, axis: usize) -> f64
        requires { axis < 3 }
        ensures { result ≡ Spec.gap_between self other axis }
    {
        let above = self.lo[axis] - other.hi[axis];
        let below = other.lo[axis] - self.hi[axis];
        ieee754::max(ieee754::max(above, below), 0.0)
    }

    #[tactic(auto, unfolding(crate::specs::Distance::bounds_distance_squared))]
    pub fn distance_squared(self, other: Bounds) -> f64
        ensures { result ≡ Spec.bounds_distance_squared self other }
    {
        let x = self.gap(other, 0);
        let y = self.gap(other, 1);
        let z = self.gap(other, 2);
        0.0 + x * x + y * y + z * z
    }
}

pub fn triangle_aabb_distance_squared(a: [[f64; 3]; 3], b: [[f64; 3]; 3]) -> f64
    ensures { result ≡ Spec.triangle_aabb_distance_squared a b }
{
    Bounds::of(a).distance_squared(Bounds::of(b))
}

#[tactic(auto, unfolding(crate::specs::Distance::triangle_max_edge_squared))]
pub fn triangle_max_edge_squared(t: [[f64; 3]; 3]) -> f64
    ensures { result ≡ Spec.triangle_max_edge_squared t }
{
    let edge0 = ieee754::max(0.0, distance_squared(t[0], t[1]));
    let edge1 = ieee754::max(edge0, distance_squared(t[1], t[2]));
    ieee754::max(edge1, distance_squared(t[2], t[0]))
}
