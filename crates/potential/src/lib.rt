// boundary_element/triangle_potential.rs: exact static potential of a uniformly loaded flat triangle.
#![tactic(auto)]

ghost use Rattle.std.specs.Prelude.{◌≡◌, ◌<◌};
ghost use Rattle.potential.specs.Potential as Spec;
ghost use Rattle.potential.specs.Moderate as Moderate;

const SURFACE_EPSILON_FACTOR: f64 = 64.0;

// f64::EPSILON
const EPSILON: f64 = 2.220446049250313e-16;

// ---- the geometry that is kept
#[tactic(auto, unfolding(crate::specs::Potential::longer))]
fn longer(a: f64, b: f64) -> f64
    ensures { result ≡ Spec.longer a b }
{
    if b > a { b } else { a }
}

#[derive(Clone, Copy)]
struct Edge {
    tangent: [f64; 3],
    outward: [f64; 3],
    length: f64,
}

// The edge from a to b of a triangle with that normal.
#[tactic(auto, unfolding(crate::specs::Potential::edge_between))]
fn edge_between(a: [f64; 3], b: [f64; 3], normal: [f64; 3]) -> Edge
    ensures { result ≡ Spec.edge_between a b normal }
{
    let delta = math::sub3(b, a);
    let length = math::norm3(delta);
    let tangent = math::scale3(delta, 1.0 / length);
    let outward = math::cross3(tangent, normal);
    Edge {
        tangent,
        outward,
        length,
    }
}

// ---- integrals over an edge and over the triangle
// Integral of 1/distance over a segment of a line that the point is on.
pub fn integral_on_line(start: f64, end: f64) -> f64
    ensures { result ≡ Spec.integral_on_line start end }
{
    if (start != 0.0) & (end != 0.0) & ((start > 0.0) == (end > 0.0)) {
        return ieee754::abs(elementary::ln(ieee754::abs(end) / ieee754::abs(start)));
    }
    1.0 / 0.0
}

// Integral of 1/distance over a segment of a line at the distance transverse.
#[tactic(auto, unfolding(crate::specs::Potential::line_integral))]
fn line_integral(start: f64, end: f64, transverse: f64) -> f64
    ensures { result ≡ Spec.line_integral start end transverse }
{
    if transverse > 0.0 {
        return elementary::asinh(end / transverse) - elementary::asinh(start / transverse);
    }
    integral_on_line(start, end)
}

// Signed solid angle, of the vectors from the corners to the point.
#[tactic(auto, unfolding(crate::specs::Potential::solid_angle))]
fn solid_angle(r0: [f64; 3], r1: [f64; 3], r2: [f64; 3]) -> f64
    ensures { result ≡ Spec.solid_angle r0 r1 r2 }
{
    let n0 = math::norm3(r0);
    let n1 = math::norm3(r1);
    let n2 = math::norm3(r2);
    let numerator = math::dot3(r0, math::cross3(r1, r2));
    let denominator = n0 * n1 * n2
        + math::dot3(r0, r1) * n2
        + math::dot3(r1, r2) * n0
        + math::dot3(r2, r0) * n1;
    2.0 * elementary::atan2(numerator, denominator)
}

// Whether x is below 1e100 in size, which a NaN is not.
#[tactic(auto, unfolding(crate::specs::Moderate::moderate))]
fn moderate(x: f64) -> bool
    ensures { result ≡ Moderate.moderate x }
{
    (-1e100 < x) & (x < 1e100)
}

#[tactic(auto, unfolding(crate::specs::Moderate::moderate3))]
fn moderate3(v: [f64; 3]) -> bool
    ensures { result ≡ Moderate.moderate3 v }
{
    moderate(v[0]) & moderate(v[1]) & moderate(v[2])
}

// a - v * s, each element rounded after the product and after the difference.
#[tactic(auto, unfolding(crate::specs::Potential::subtract_scaled))]
fn subtract_scaled(a: [f64; 3], v: [f64; 3], s: f64) -> [f64; 3]
    ensures { result ≡ Spec.subtract_scaled a v s }
{
    [a[0] - v[0] * s, a[1] - v[1] * s, a[2] - v[2] * s]
}

// Geometry of a triangle, worked out one time and kept whole.
#[derive(Clone, Copy)]
pub struct UniformTriangle {
    pub nodes: [[f64; 3]; 3],
    pub normal: [f64; 3],
    pub edge_tangent: [[f64; 3]; 3],
    pub edge_outward: [[f64; 3]; 3],
    pub edge_length: [f64; 3],
    pub max_edge: f64,
}

impl UniformTriangle {
    #[tactic(auto, unfolding(crate::specs::Potential::uniform_triangle, crate::specs::Potential::uniform_triangle_of))]
    pub fn new(t: [[f64; 3]; 3]) -> Self
        ensures { result ≡ Spec.uniform_triangle t }
    {
        let normal = math::normalize3(tri::mapping::raw_normal(t));
        let Edge {
            tangent: t0,
            outward: o0,
            length: l0,
        } = edge_between(t[0], t[1], normal);
        let Edge {
            tangent: t1,
            outward: o1,
            length: l1,
        } = edge_between(t[1], t[2], normal);
        let Edge {
            tangent: t2,
            outward: o2,
            length: l2,
        } = edge_between(t[2], t[0], normal);
        UniformTriangle {
            nodes: t,
            normal,
            edge_tangent: [t0, t1, t2],
            edge_outward: [o0, o1, o2],
            edge_length: [l0, l1, l2],
            max_edge: longer(longer(longer(0.0, l0), l1), l2),
        }
    }

    pub fn nodes(self) -> [[f64; 3]; 3]
        ensures { result ≡ Spec.corners self }
    {
        self.nodes
    }

    // Distance of obs from the plane, positive on the normal's side.
    #[tactic(auto, unfolding(crate::specs::Potential::distance_from_plane))]
    fn distance_from_plane(self, obs: [f64; 3]) -> f64
        ensures { result ≡ Spec.distance_from_plane self obs }
    {
        math::dot3(math::sub3(obs, self.nodes[0]), self.normal)
    }

    // The edge's integral, of the vector r from the point to the edge's first node, and h, the edge line's distance along outward.
    #[tactic(auto, unfolding(crate::specs::Potential::edge_integral_from))]
    fn edge_integral_from(self, edge: usize, r: [f64; 3], h: f64, d: f64) -> f64
        requires { edge < 3 }
        ensures { result ≡ Spec.edge_integral_from self edge r h d }
    {
        let along_start = math::dot3(r, self.edge_tangent[edge]);
        let along_end = along_start + self.edge_length[edge];
        let transverse = ieee754::sqrt(ieee754::square_add(h, d * d));
        line_integral(along_start, along_end, transverse)
    }

    // Integral of 1/distance over one edge.
    #[tactic(auto, unfolding(crate::specs::Potential::edge_integral))]
    fn edge_integral(self, edge: usize, obs: [f64; 3], d: f64) -> f64
        requires { edge < 3 }
        ensures { result ≡ Spec.edge_integral self edge obs d }
    {
        let r = math::sub3(self.nodes[edge], obs);
        let h = math::dot3(r, self.edge_outward[edge]);
        self.edge_integral_from(edge, r, h, d)
    }

    #[tactic(auto, unfolding(crate::specs::Potential::signed_solid_angle))]
    fn signed_solid_angle(self, obs: [f64; 3]) -> f64
        ensures { result ≡ Spec.signed_solid_angle self obs }
    {
        let r0 = math::sub3(obs, self.nodes[0]);
        let r1 = math::sub3(obs, self.nodes[1]);
        let r2 = math::sub3(obs, self.nodes[2]);
        solid_angle(r0, r1, r2)
    }

    // One edge's part of the potential, added to value. Where h log(h) has the limit 0, nothing is added.
    #[tactic(auto, unfolding(crate::specs::Potential::add_edge, crate::specs::Potential::edge_integral))]
    fn add_edge(self, edge: usize, obs: [f64; 3], d: f64, value: f64) -> f64
        requires { edge < 3 }
        ensures { result ≡ Spec.add_edge self edge obs d value }
    {
        let r = math::sub3(self.nodes[edge], obs);
        let h = math::dot3(r, self.edge_outward[edge]);
        if (h == 0.0) & (d == 0.0) {
            return value;
        }
        value + h * self.edge_integral_from(edge, r, h, d)
    }

    // value less the solid angle's part. In the plane that part is a zero wherever the solid angle is finite, and needs no solid angle.
    pub fn less_solid_angle(self, obs: [f64; 3], d: f64, value: f64) -> f64
        ensures { result ≡ Spec.less_solid_angle self obs d value }
    {
        let r0 = math::sub3(obs, self.nodes[0]);
        let r1 = math::sub3(obs, self.nodes[1]);
        let r2 = math::sub3(obs, self.nodes[2]);
        if (d == 0.0) & (value != 0.0) & moderate3(r0) & moderate3(r1) & moderate3(r2) {
            return value;
        }
        value - d * solid_angle(r0, r1, r2)
    }

    // Potential in metres.
    #[tactic(auto, unfolding(crate::specs::Potential::scalar_potential))]
    pub fn scalar_potential(self, obs: [f64; 3]) -> f64
        ensures { result ≡ Spec.scalar_potential self obs }
    {
        let d = self.distance_from_plane(obs);
        let first = self.add_edge(0, obs, d, 0.0);
        let second = self.add_edge(1, obs, d, first);
        let value = self.add_edge(2, obs, d, second);
        self.less_solid_angle(obs, d, value)
    }

    // One edge's part of the gradient, taken from gradient. Nothing is left out on an edge.
    #[tactic(auto, unfolding(crate::specs::Potential::subtract_edge))]
    fn subtract_edge(self, edge: usize, obs: [f64; 3], d: f64, gradient: [f64; 3]) -> [f64; 3]
        requires { edge < 3 }
        ensures { result ≡ Spec.subtract_edge self edge obs d gradient }
    {
        let integral = self.edge_integral(edge, obs, d);
        subtract_scaled(gradient, self.edge_outward[edge], integral)
    }

    // Gradient of the potential at obs, a pure number.
    #[tactic(auto, unfolding(crate::specs::Potential::scalar_potential_gradient))]
    pub fn scalar_potential_gradient(self, obs: [f64; 3]) -> [f64; 3]
        ensures { result ≡ Spec.scalar_potential_gradient self obs }
    {
        let d = self.distance_from_plane(obs);
        let first = self.subtract_edge(0, obs, d, [0.0, 0.0, 0.0]);
        let second = self.subtract_edge(1, obs, d, first);
        let gradient = self.subtract_edge(2, obs, d, second);
        subtract_scaled(gradient, self.normal, self.signed_solid_angle(obs))
    }

    // Whether obs is on the triangle, but for rounding.
    #[tactic(auto, unfolding(crate::specs::Potential::contains_on_surface))]
    pub fn contains_on_surface(self, obs: [f64; 3]) -> bool
        ensures { result ≡ Spec.contains_on_surface self obs }
    {
        let closest = tri::tri3::closest_point(obs, self.nodes());
        let delta = math::sub3(obs, closest);
        let scale = ieee754::max(math::norm3(obs), self.max_edge);
        let tolerance = SURFACE_EPSILON_FACTOR * EPSILON * scale;
        math::norm_squared3(delta) <= tolerance * tolerance
    }
}
