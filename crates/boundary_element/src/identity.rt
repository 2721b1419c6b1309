// Whether two panels are one, to the geometric tolerance.
ghost use Rattle.std.specs.Prelude.{◌≡◌};
ghost use Rattle.boundary_element.specs.Identity as Spec;

#[tactic(auto, unfolding(crate::specs::Identity::points_match))]
pub fn points_match(a: [f64; 3], b: [f64; 3]) -> bool
    ensures { result ≡ Spec.points_match a b }
{
    math::norm3(math::sub3(a, b)) < 1e-12
}

#[tactic(auto, unfolding(crate::specs::Identity::matches_corner))]
fn matches_corner(p: [f64; 3], t: [[f64; 3]; 3]) -> bool
    ensures { result ≡ Spec.matches_corner p t }
{
    points_match(p, t[0]) | (points_match(p, t[1]) | points_match(p, t[2]))
}

// Every source corner matches some target corner: one way only.
#[tactic(auto, unfolding(crate::specs::Identity::triangles_identical))]
pub fn triangles_identical(source: [[f64; 3]; 3], target: [[f64; 3]; 3]) -> bool
    ensures { result ≡ Spec.triangles_identical source target }
{
    matches_corner(source[0], target)
        & (matches_corner(source[1], target) & matches_corner(source[2], target))
}
