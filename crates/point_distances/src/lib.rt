// The distances between the points of two panels, all at once: the differences, their squares and the estimates of the
// roots in loops without a branch, which the compiler lays out in lanes, then the tests of both.
#![tactic(auto)]

ghost use Rattle.std.specs.Prelude.{◌≡◌, ℕ, ◌+◌, ◌*◌, ◌≤◌, ◌<◌, length};
ghost use Rattle.binary64.specs.Binary64.{◌⊖◌, at};
ghost use Rattle.math.specs.Math.{norm3};
ghost use Rattle.square_root.specs.Estimate.{root_estimate};
ghost use Rattle.length_lanes.specs.Length.{SquareOf, square_at};
ghost use Rattle.lists.specs.Filling.{run};
ghost use Rattle.point_distances.specs.Distances as Spec;
ghost use Rattle.point_distances.specs.Distances.{max_pairs, vector};
ghost use Rattle.tri.specs.Quadrature.{max_points};

// The most points that a rule has, squared.
pub const MAX_PAIRS: usize = 49;

// The coordinates of points, lent.
#[derive(Clone, Copy)]
pub struct PointColumns<'a> {
    pub x: &'a [f64],
    pub y: &'a [f64],
    pub z: &'a [f64],
}

// The vectors between the points of all pairs, each coordinate in an array of its own.
#[derive(Clone, Copy)]
struct Vectors {
    x: [f64; MAX_PAIRS],
    y: [f64; MAX_PAIRS],
    z: [f64; MAX_PAIRS],
}

// q less each of the first n numbers, from index start.
fn difference_row(q: f64, x: &[f64], n: usize, start: usize, out: &mut [f64; MAX_PAIRS])
    requires { (n ≤ length x.now) × (start + n ≤ max_pairs) }
    ensures { out.new ≡ run out.old start n (λ j. q ⊖ at x.now j) n }
{
    for j in 0..n {
        out[start + j] = q - x[j];
    }
}

// One coordinate of all pairs, point i of the first n less point j at i * n + j.
fn differences(a: &[f64], x: &[f64], n: usize, out: &mut [f64; MAX_PAIRS])
    requires { (n ≤ length a.now) × (n ≤ length x.now) × (n ≤ max_points) }
    ensures { out.new ≡ run out.old 0 (n * n) (Spec.difference a.now x.now n) (n * n) }
{
    for i in 0..n {
        difference_row(a[i], x, n, i * n, out);
    }
}

// The squares of the lengths of the first count vectors, or NaN where a rounding is not settled.
fn square_lanes(v: &Vectors, count: usize, out: &mut [f64; MAX_PAIRS])
    requires { count ≤ max_pairs }
    ensures out_value { out.new ≡ run out.old 0 count (square_at v.now.x v.now.y v.now.z) count }
    ensures by_index { (k : ℕ) → k < count → SquareOf (vector v.now k) (at out.new k) }
{
    for k in 0..count {
        out[k] = length_lanes::square_lane(v.x[k], v.y[k], v.z[k]);
    }
}

// Guesses of the roots of the first count numbers.
fn estimates(s: &[f64; MAX_PAIRS], count: usize, out: &mut [f64; MAX_PAIRS])
    requires { count ≤ max_pairs }
    ensures { out.new ≡ run out.old 0 count (λ k. root_estimate (at s.now k)) count }
{
    for k in 0..count {
        out[k] = square_root::root_estimate(s[k]);
    }
}

// The lengths of the first count vectors.
fn lengths(v: &Vectors, count: usize, out: &mut [f64])
    requires { (count ≤ max_pairs) × (count ≤ length out.old) }
    ensures { out.new ≡ run out.old 0 count (λ k. norm3 (vector v.now k)) count }
{
    let mut s = [0.0; MAX_PAIRS];
    let mut g = [0.0; MAX_PAIRS];
    square_lanes(v, count, &mut s);
    estimates(&s, count, &mut g);
    for k in 0..count {
        out[k] = length_lanes::length_of(v.x[k], v.y[k], v.z[k], s[k], g[k]);
    }
}

// The distance from point i of p to point j of q at i * n + j, for the first n points of each.
// Into an output that is lent, here and above: an array that is handed back is copied, and makes far pairs 3 to 10 % slower.
// The loops above go by an index: up to five arrays are read and written at one index, so a zip is no plainer.
pub fn distances(p: &PointColumns, q: &PointColumns, n: usize, out: &mut [f64])
    requires from { (n ≤ length p.now.x.now) × (n ≤ length p.now.y.now) × (n ≤ length p.now.z.now) }
    requires to { (n ≤ length q.now.x.now) × (n ≤ length q.now.y.now) × (n ≤ length q.now.z.now) }
    requires fits { (n ≤ max_points) × (n * n ≤ length out.old) }
    ensures { out.new ≡ run out.old 0 (n * n) (Spec.distance p.now q.now n) (n * n) }
{
    let mut v = Vectors {
        x: [0.0; MAX_PAIRS],
        y: [0.0; MAX_PAIRS],
        z: [0.0; MAX_PAIRS],
    };
    differences(p.x, q.x, n, &mut v.x);
    differences(p.y, q.y, n, &mut v.y);
    differences(p.z, q.z, n, &mut v.z);
    lengths(&v, n * n, out);
}
