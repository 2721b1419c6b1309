// Pairs of panels, of a point and a panel, and of segments.
ghost use Rattle.std.specs.Prelude.{◌≡◌};
ghost use Rattle.replay_calls.specs.Kinds as Spec;

use replay_words::words::{coordinates_at, same_flag, same_number, triangle, vector};

pub fn identical(f: &[f64; 2048], w: &[u64; 2048]) -> bool
    ensures { result ≡ Spec.identical f.now w.now }
{
    same_flag(
        boundary_element::identity::triangles_identical(triangle(f, 0), triangle(f, 9)),
        w,
        18,
    )
}

pub fn box_distance(f: &[f64; 2048], w: &[u64; 2048]) -> bool
    ensures { result ≡ Spec.box_distance f.now w.now }
{
    same_number(
        panel_distance::distance::triangle_aabb_distance_squared(triangle(f, 0), triangle(f, 9)),
        w,
        18,
    )
}

pub fn panel_distance(f: &[f64; 2048], w: &[u64; 2048]) -> bool
    ensures { result ≡ Spec.panel_distance f.now w.now }
{
    same_number(
        panel_distance::distance::triangle_distance_squared(triangle(f, 0), triangle(f, 9)),
        w,
        18,
    )
}

pub fn longest_edge(f: &[f64; 2048], w: &[u64; 2048]) -> bool
    ensures { result ≡ Spec.longest_edge f.now w.now }
{
    same_number(
        panel_distance::distance::triangle_max_edge_squared(triangle(f, 0)),
        w,
        9,
    )
}

pub fn is_far(f: &[f64; 2048], w: &[u64; 2048]) -> bool
    ensures { result ≡ Spec.is_far f.now w.now }
{
    same_flag(
        coupling::coupling::is_far(triangle(f, 0), triangle(f, 9)),
        w,
        18,
    )
}

pub fn point_distance(f: &[f64; 2048], w: &[u64; 2048]) -> bool
    ensures { result ≡ Spec.point_distance f.now w.now }
{
    same_number(
        panel_distance::distance::point_triangle_distance_squared(vector(f, 0), triangle(f, 3)),
        w,
        12,
    )
}

pub fn segment_distance(f: &[f64; 2048], w: &[u64; 2048]) -> bool
    ensures { result ≡ Spec.segment_distance f.now w.now }
{
    same_number(
        panel_distance::distance::segment_distance_squared(
            vector(f, 0),
            vector(f, 3),
            vector(f, 6),
            vector(f, 9),
        ),
        w,
        12,
    )
}

pub fn block_energy(f: &[f64; 2048], w: &[u64; 2048]) -> bool
    ensures { result ≡ Spec.block_energy f.now w.now }
{
    same_number(
        coupling::block::triangle_inductance_from_potential_vectors(
            coordinates_at(f, 0),
            vector(f, 9),
            vector(f, 12),
        ),
        w,
        15,
    )
}

// By the kind's number.
#[tactic(auto, unfolding(crate::specs::Kinds::pairs_agree, crate::specs::Kinds::chosen))]
pub fn agree(kind: u64, f: &[f64; 2048], w: &[u64; 2048]) -> bool
    ensures { result ≡ Spec.pairs_agree kind f.now w.now }
{
    match kind {
        41 => identical(f, w),
        54 => box_distance(f, w),
        55 => panel_distance(f, w),
        56 => longest_edge(f, w),
        57 => is_far(f, w),
        37 => point_distance(f, w),
        38 => segment_distance(f, w),
        40 => block_energy(f, w),
        _ => false,
    }
}
