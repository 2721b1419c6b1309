// The far rule with each distance worked out once for both directions.
#![tactic(auto)]

ghost use Rattle.std.specs.Prelude.{◌≡◌, ◌+◌, ◌≤◌};
ghost use Rattle.binary64.specs.Binary64.{at, ◌⊘◌};
ghost use Rattle.lists.specs.Sums.{sum_to};
ghost use Rattle.pair_far_rule.specs.Far as Spec;
ghost use Rattle.pair_far_rule.specs.Far.{from, shared};
ghost use Rattle.tri.specs.Quadrature.{max_points};
ghost use Rattle.point_distances.specs.Distances.{max_pairs};

use panel_points::{WeightedPoints, weighted};
use point_distances::{MAX_PAIRS, PointColumns};
use tri::quadrature::MAX_POINTS;

// ---- the sums
// The potential of points with the weights w at the distances d[start + j]; what a point with the
// weight v at those distances adds at each of them goes into held. By an index: three arrays are read at two.
fn share_row(
    count: usize,
    w: [f64; MAX_POINTS],
    d: &[f64; MAX_PAIRS],
    start: usize,
    v: f64,
    held: &mut [f64; MAX_POINTS],
) -> f64
    requires { (count ≤ max_points) × (start + count ≤ max_pairs) }
    ensures { (result ≡ sum_to (λ j. at w j ⊘ from d.now start j) count) × (held.new ≡ shared held.old v (from d.now start) count) }
{
    let mut out = 0.0;
    for j in 0..count {
        out += w[j] / d[start + j];
        held[j] += v / d[start + j];
    }
    out
}

// Half the sum of the two directions, for a rule of one point.
fn far_one(s: &WeightedPoints, t: &WeightedPoints) -> f64
    ensures { result ≡ Spec.far_shared 1 s.now t.now }
{
    let d = math::norm3(math::sub3(t.points.point(0), s.points.point(0)));
    let there = 0.0 + t.weight[0] * (0.0 + s.weight[0] / d);
    let back = 0.0 + s.weight[0] * (0.0 + t.weight[0] / d);
    0.5 * (there + back)
}

// Half the sum of the two directions over all distances, of the weights of both.
fn far_sums(count: usize, w: [f64; MAX_POINTS], v: [f64; MAX_POINTS], d: &[f64; MAX_PAIRS]) -> f64
    requires { count ≤ max_points }
    ensures { result ≡ Spec.far_by count w v d.now }
{
    let mut held = [0.0; MAX_POINTS];
    let mut out = 0.0;
    for i in 0..count {
        out += v[i] * share_row(count, w, d, i * count, v[i], &mut held);
    }
    0.5 * (out + weighted(count, w, held))
}

// Half the sum of the two directions; of more points than one by all distances at once.
pub fn far_coupling(count: usize, s: &WeightedPoints, t: &WeightedPoints) -> f64
    requires { count ≤ max_points }
    ensures { result ≡ Spec.far_shared count s.now t.now }
{
    if count == 1 {
        return far_one(s, t);
    }
    let mut d = [0.0; MAX_PAIRS];
    let to = PointColumns {
        x: &t.points.x,
        y: &t.points.y,
        z: &t.points.z,
    };
    let from = PointColumns {
        x: &s.points.x,
        y: &s.points.y,
        z: &s.points.z,
    };
    point_distances::distances(&to, &from, count, &mut d);
    far_sums(count, s.weight, t.weight, &d)
}
