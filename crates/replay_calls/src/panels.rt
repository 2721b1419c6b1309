// Panels.
ghost use Rattle.std.specs.Prelude.{◌≡◌};
ghost use Rattle.replay_calls.specs.Kinds as Spec;

use boundary_element::current_density;
use potential::UniformTriangle;
use replay_words::words::{same_flag, same_number, same_triangle, same_vector, triangle, vector};

pub fn closest_point(f: &[f64; 2048], w: &[u64; 2048]) -> bool
    ensures { result ≡ Spec.closest_point f.now w.now }
{
    same_vector(
        tri::tri3::closest_point(vector(f, 0), triangle(f, 3)),
        w,
        12,
    )
}

pub fn area(f: &[f64; 2048], w: &[u64; 2048]) -> bool
    ensures { result ≡ Spec.area f.now w.now }
{
    same_number(tri::mapping::area(triangle(f, 0)), w, 9)
}

pub fn quality(f: &[f64; 2048], w: &[u64; 2048]) -> bool
    ensures { result ≡ Spec.quality f.now w.now }
{
    same_number(mesh::triangle_quality(triangle(f, 0)), w, 9)
}

pub fn potential(f: &[f64; 2048], w: &[u64; 2048]) -> bool
    ensures { result ≡ Spec.potential f.now w.now }
{
    same_number(
        UniformTriangle::new(triangle(f, 0)).scalar_potential(vector(f, 9)),
        w,
        12,
    )
}

pub fn gradient(f: &[f64; 2048], w: &[u64; 2048]) -> bool
    ensures { result ≡ Spec.gradient f.now w.now }
{
    same_vector(
        UniformTriangle::new(triangle(f, 0)).scalar_potential_gradient(vector(f, 9)),
        w,
        12,
    )
}

pub fn contact(f: &[f64; 2048], w: &[u64; 2048]) -> bool
    ensures { result ≡ Spec.contact f.now w.now }
{
    same_flag(
        UniformTriangle::new(triangle(f, 0)).contains_on_surface(vector(f, 9)),
        w,
        12,
    )
}

pub fn basis_densities(f: &[f64; 2048], w: &[u64; 2048]) -> bool
    ensures { result ≡ Spec.basis_densities f.now w.now }
{
    same_triangle(
        current_density::triangle_basis_current_densities(triangle(f, 0)),
        w,
        9,
    )
}

pub fn panel_density(f: &[f64; 2048], w: &[u64; 2048]) -> bool
    ensures { result ≡ Spec.panel_density f.now w.now }
{
    same_vector(
        current_density::triangle_current_density(triangle(f, 0), vector(f, 9)),
        w,
        12,
    )
}

pub fn map_point(f: &[f64; 2048], w: &[u64; 2048]) -> bool
    ensures { result ≡ Spec.map_point f.now w.now }
{
    same_vector(tri::mapping::map_point(triangle(f, 0), f[9], f[10]), w, 11)
}

pub fn normal(f: &[f64; 2048], w: &[u64; 2048]) -> bool
    ensures { result ≡ Spec.normal f.now w.now }
{
    same_vector(tri::mapping::normal(triangle(f, 0)), w, 9)
}

// By the kind's number.
#[tactic(auto, unfolding(crate::specs::Kinds::panels_agree, crate::specs::Kinds::chosen))]
pub fn agree(kind: u64, f: &[f64; 2048], w: &[u64; 2048]) -> bool
    ensures { result ≡ Spec.panels_agree kind f.now w.now }
{
    match kind {
        9 => closest_point(f, w),
        10 => area(f, w),
        11 => quality(f, w),
        13 => potential(f, w),
        14 => gradient(f, w),
        15 => contact(f, w),
        23 => basis_densities(f, w),
        24 => panel_density(f, w),
        42 => map_point(f, w),
        43 => normal(f, w),
        _ => false,
    }
}
