// The length of a vector in two steps: its square by a lane, which has no branch, so that a loop over arrays is laid out in
// lanes; then the root, with the square anew where the lane did not settle it.
#![tactic(auto)]

ghost use Rattle.std.specs.Prelude.{◌≡◌, [], ◌∷◌};
ghost use Rattle.math.specs.Math.{norm3};
ghost use Rattle.length_lanes.specs.Length as Spec;

// The square of the length of (x, y, z), or NaN where a rounding is not settled.
#[tactic(auto, using(fused_lanes::proofs::Laws::Stays::of_number), unfolding(crate::specs::Length::square_lane, math::specs::Math::dot3))]
pub fn square_lane(x: f64, y: f64, z: f64) -> f64
    ensures value { result ≡ Spec.square_lane x y z }
    ensures square_of { Spec.SquareOf (x ∷ y ∷ z ∷ []) result }
{
    fused_lanes::square_add(x, fused_lanes::square_add(y, z * z))
}

// The length of (x, y, z), whatever the estimate g of its root is; s is its square, or NaN.
#[tactic(auto, using(ieee754::proofs::Signs::differs), unfolding(math::specs::Math::norm3))]
pub fn length_of(x: f64, y: f64, z: f64, s: f64, g: f64) -> f64
    requires { Spec.SquareOf (x ∷ y ∷ z ∷ []) s }
    ensures { result ≡ norm3 (x ∷ y ∷ z ∷ []) }
{
    if s != s {
        return math::norm3([x, y, z]);
    }
    square_root::checked(s, g)
}
