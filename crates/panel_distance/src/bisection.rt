// A triangle halved at its longest edge.
ghost use Rattle.std.specs.Prelude.{◌≡◌, ◌<◌};
ghost use Rattle.panel_distance.specs.Bisection as Spec;

use crate::distance::distance_squared;

// Of the lengths of three edges the first that is longest.
#[tactic(auto, unfolding(crate::specs::Bisection::first_longest))]
fn first_longest(l0: f64, l1: f64, l2: f64) -> usize
    ensures { (result ≡ Spec.first_longest l0 l1 l2) × (result < 3) }
{
    if (l1 > l0) & (l1 >= l2) {
        return 1;
    }
    if l2 > l0 {
        return 2;
    }
    0
}

// The edge that is split; edge i goes from corner i to the next.
#[tactic(auto, unfolding(crate::specs::Bisection::longest_edge))]
pub fn longest_edge(t: [[f64; 3]; 3]) -> usize
    ensures { (result ≡ Spec.longest_edge t) × (result < 3) }
{
    let l0 = distance_squared(t[0], t[1]);
    let l1 = distance_squared(t[1], t[2]);
    let l2 = distance_squared(t[2], t[0]);
    first_longest(l0, l1, l2)
}

#[tactic(auto, unfolding(crate::specs::Bisection::midpoint))]
fn midpoint(a: [f64; 3], b: [f64; 3]) -> [f64; 3]
    ensures { result ≡ Spec.midpoint a b }
{
    [
        0.5 * (a[0] + b[0]),
        0.5 * (a[1] + b[1]),
        0.5 * (a[2] + b[2]),
    ]
}

// The halves at the edge from a to b; c is the corner across.
#[tactic(auto, unfolding(crate::specs::Bisection::halves))]
fn halves(a: [f64; 3], b: [f64; 3], c: [f64; 3]) -> [[[f64; 3]; 3]; 2]
    ensures { result ≡ Spec.halves a b c }
{
    let m = midpoint(a, b);
    [[a, m, c], [m, b, c]]
}

#[tactic(auto, unfolding(crate::specs::Bisection::longest_edge_bisection))]
pub fn longest_edge_bisection(t: [[f64; 3]; 3]) -> [[[f64; 3]; 3]; 2]
    ensures { result ≡ Spec.longest_edge_bisection t }
{
    let edge = longest_edge(t);
    halves(t[edge], t[(edge + 1) % 3], t[(edge + 2) % 3])
}
