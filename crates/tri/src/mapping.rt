// mapping.rs: from the reference triangle to a triangle in space.
ghost use Rattle.std.specs.Prelude.{◌≡◌};
ghost use Rattle.tri.specs.Mapping as Spec;

// The point of the triangle t at (u, v) of the reference triangle.
#[tactic(auto, unfolding(crate::specs::Mapping::map_point))]
pub fn map_point(t: [[f64; 3]; 3], u: f64, v: f64) -> [f64; 3]
    ensures { result ≡ Spec.map_point t u v }
{
    let w = 1.0 - u - v;
    [
        t[0][0] * w + t[1][0] * u + t[2][0] * v,
        t[0][1] * w + t[1][1] * u + t[2][1] * v,
        t[0][2] * w + t[1][2] * u + t[2][2] * v,
    ]
}

// The cross product of the edges at corner 0: along the normal, twice the area long.
#[tactic(auto, unfolding(crate::specs::Mapping::raw_normal))]
pub fn raw_normal(t: [[f64; 3]; 3]) -> [f64; 3]
    ensures { result ≡ Spec.raw_normal t }
{
    math::cross3(math::sub3(t[1], t[0]), math::sub3(t[2], t[0]))
}

#[tactic(auto, unfolding(crate::specs::Mapping::area))]
pub fn area(t: [[f64; 3]; 3]) -> f64
    ensures { result ≡ Spec.area t }
{
    0.5 * math::norm3(raw_normal(t))
}

#[tactic(auto, unfolding(crate::specs::Mapping::divide3))]
fn divide3(v: [f64; 3], s: f64) -> [f64; 3]
    ensures { result ≡ Spec.divide3 v s }
{
    [v[0] / s, v[1] / s, v[2] / s]
}

// The unit normal, by three divisions and not, as normalize3 has it, by a reciprocal.
#[tactic(auto, unfolding(crate::specs::Mapping::normal))]
pub fn normal(t: [[f64; 3]; 3]) -> [f64; 3]
    ensures { result ≡ Spec.normal t }
{
    let cross = raw_normal(t);
    divide3(cross, math::norm3(cross))
}
