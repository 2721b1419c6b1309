// What the C interface hands back in one array: a panel's record and the two halves of a triangle as single numbers.
#![tactic(auto)]

ghost use Rattle.std.specs.Prelude.{◌≡◌};
ghost use Rattle.lent_numbers.specs.Numbers.{halves_of, record_numbers};

use lists::put;
use panel_points::coordinates;
use potential::UniformTriangle;

// The numbers of a panel's record in its fields' order.
pub fn record_numbers(p: UniformTriangle) -> [f64; 34]
    ensures { result ≡ record_numbers p }
{
    let mut out = [0.0; 34];
    put(&mut out, 0, &coordinates(p.nodes));
    put(&mut out, 9, &p.normal);
    put(&mut out, 12, &coordinates(p.edge_tangent));
    put(&mut out, 21, &coordinates(p.edge_outward));
    put(&mut out, 30, &p.edge_length);
    put(&mut out, 33, &[p.max_edge]);
    out
}

// Two triangles as eighteen numbers.
pub fn eighteen(h: [[[f64; 3]; 3]; 2]) -> [f64; 18]
    ensures { result ≡ halves_of h }
{
    let mut out = [0.0; 18];
    put(&mut out, 0, &coordinates(h[0]));
    put(&mut out, 9, &coordinates(h[1]));
    out
}
