// src/math.rs: vectors of three numbers by value; src/lib.rs: the magnetic constants.
#![tactic(auto)]

ghost use Rattle.std.specs.Prelude.{◌≡◌};
ghost use Rattle.math.specs.Math as Spec;

use ieee754::PI;

const MU_0: f64 = 0.999_999_999_87 * PI * 4e-7;

const MU0_OVER_4PI: f64 = MU_0 / (4.0 * PI);

// Vacuum permeability in H/m.
#[tactic(auto, using(crate::proofs::Constants::mu0_bits))]
pub fn mu_0() -> f64
    ensures { result ≡ Spec.mu0 }
{
    MU_0
}

#[tactic(auto, using(crate::proofs::Constants::mu0_over_4pi_bits))]
pub fn mu0_over_4pi() -> f64
    ensures { result ≡ Spec.mu0_over4_pi }
{
    MU0_OVER_4PI
}

#[tactic(auto, unfolding(crate::specs::Math::dot3))]
pub fn dot3(a: [f64; 3], b: [f64; 3]) -> f64
    ensures { result ≡ Spec.dot3 a b }
{
    ieee754::mul_add(a[0], b[0], ieee754::mul_add(a[1], b[1], a[2] * b[2]))
}

// dot3(v, v), with the faster product of a number with itself.
#[tactic(auto, unfolding(crate::specs::Math::dot3))]
pub fn norm_squared3(v: [f64; 3]) -> f64
    ensures { result ≡ Spec.dot3 v v }
{
    ieee754::square_add(v[0], ieee754::square_add(v[1], v[2] * v[2]))
}

#[tactic(auto, unfolding(crate::specs::Math::norm3))]
pub fn norm3(v: [f64; 3]) -> f64
    ensures { result ≡ Spec.norm3 v }
{
    ieee754::sqrt(norm_squared3(v))
}

#[tactic(auto, unfolding(crate::specs::Math::normalize3))]
pub fn normalize3(v: [f64; 3]) -> [f64; 3]
    ensures { result ≡ Spec.normalize3 v }
{
    scale3(v, 1.0 / norm3(v))
}

// `0.0 - b` and not `-b`: they differ at b = 0.
#[tactic(auto, unfolding(crate::specs::Math::cross3))]
pub fn cross3(a: [f64; 3], b: [f64; 3]) -> [f64; 3]
    ensures { result ≡ Spec.cross3 a b }
{
    [
        ieee754::mul_add(a[1], b[2], (0.0 - b[1]) * a[2]),
        ieee754::mul_add(a[2], b[0], (0.0 - b[2]) * a[0]),
        ieee754::mul_add(a[0], b[1], (0.0 - b[0]) * a[1]),
    ]
}

#[tactic(auto, unfolding(crate::specs::Math::sub3))]
pub fn sub3(a: [f64; 3], b: [f64; 3]) -> [f64; 3]
    ensures { result ≡ Spec.sub3 a b }
{
    [a[0] - b[0], a[1] - b[1], a[2] - b[2]]
}

#[tactic(auto, unfolding(crate::specs::Math::add3))]
pub fn add3(a: [f64; 3], b: [f64; 3]) -> [f64; 3]
    ensures { result ≡ Spec.add3 a b }
{
    [a[0] + b[0], a[1] + b[1], a[2] + b[2]]
}

#[tactic(auto, unfolding(crate::specs::Math::scale3))]
pub fn scale3(v: [f64; 3], scale: f64) -> [f64; 3]
    ensures { result ≡ Spec.scale3 v scale }
{
    [v[0] * scale, v[1] * scale, v[2] * scale]
}

// a + scale * b
#[tactic(auto, unfolding(crate::specs::Math::add_scaled3))]
pub fn add_scaled3(a: [f64; 3], b: [f64; 3], scale: f64) -> [f64; 3]
    ensures { result ≡ Spec.add_scaled3 a b scale }
{
    [
        ieee754::mul_add(scale, b[0], a[0]),
        ieee754::mul_add(scale, b[1], a[1]),
        ieee754::mul_add(scale, b[2], a[2]),
    ]
}
