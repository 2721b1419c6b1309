// Two panels, source and target, each by the nine coordinates of its corners.
ghost use Rattle.std.specs.Prelude.{◌≡◌};
ghost use Rattle.panel_distance.specs.Bisection as Bisection;
ghost use Rattle.coupling.specs.Block as Block;
ghost use Rattle.coupling.specs.Calls as Calls;
ghost use Rattle.coupling.specs.Coupling as Coupling;
ghost use Rattle.panel_distance.specs.Distance as Distance;
ghost use Rattle.lent_numbers.specs.Numbers.{halves_of};
ghost use Rattle.screens_panels.specs.Screens.{vector, triangle, Valued, WroteBlock};

use lent_numbers::eighteen;
use panel_points::triangle;
use refusal::hand_out;

#[unsafe(no_mangle)]
pub extern "C" fn screens_triangle_distance_squared(source: &[f64; 9], target: &[f64; 9]) -> f64
    ensures { result ≡ Distance.triangle_distance_squared (triangle source) (triangle target) }
{
    panel_distance::distance::triangle_distance_squared(triangle(*source), triangle(*target))
}

#[unsafe(no_mangle)]
pub extern "C" fn screens_triangle_aabb_distance_squared(
    source: &[f64; 9],
    target: &[f64; 9],
) -> f64
    ensures { result ≡ Distance.triangle_aabb_distance_squared (triangle source) (triangle target) }
{
    panel_distance::distance::triangle_aabb_distance_squared(triangle(*source), triangle(*target))
}

#[unsafe(no_mangle)]
pub extern "C" fn screens_triangle_max_edge_squared(t: &[f64; 9]) -> f64
    ensures { result ≡ Distance.triangle_max_edge_squared (triangle t) }
{
    panel_distance::distance::triangle_max_edge_squared(triangle(*t))
}

#[unsafe(no_mangle)]
pub extern "C" fn screens_is_far(source: &[f64; 9], target: &[f64; 9]) -> bool
    ensures { result ≡ Coupling.is_far (triangle source) (triangle target) }
{
    coupling::coupling::is_far(triangle(*source), triangle(*target))
}

// The geometric coupling; it goes to the lent number, 0 on a refusal, as every value below.
#[tactic(auto, using(crate::proofs::Lent::valued))]
#[unsafe(no_mangle)]
pub extern "C" fn screens_coupling(
    rule: u32,
    source: &[f64; 9],
    target: &[f64; 9],
    value: &mut f64,
) -> u32
    ensures { Valued (Calls.triangle_geometric_coupling rule (triangle source) (triangle target)) result value.new }
{
    let answer = coupling::calls::triangle_geometric_coupling(
        rule,
        triangle(*source),
        triangle(*target),
    );
    hand_out(answer, 0.0, value)
}

#[tactic(auto, using(crate::proofs::Lent::valued))]
#[unsafe(no_mangle)]
pub extern "C" fn screens_coupling_regular(
    rule: u32,
    source: &[f64; 9],
    target: &[f64; 9],
    value: &mut f64,
) -> u32
    ensures { Valued (Calls.triangle_geometric_coupling_regular rule (triangle source) (triangle target)) result value.new }
{
    let answer = coupling::calls::triangle_geometric_coupling_regular(
        rule,
        triangle(*source),
        triangle(*target),
    );
    hand_out(answer, 0.0, value)
}

// Between corner i of the source and corner j of the target.
#[tactic(auto, using(crate::proofs::Lent::valued))]
#[unsafe(no_mangle)]
pub extern "C" fn screens_mutual_inductance(
    rule: u32,
    source: &[f64; 9],
    i: usize,
    target: &[f64; 9],
    j: usize,
    value: &mut f64,
) -> u32
    ensures { Valued (Calls.triangle_basis_mutual_inductance rule (triangle source) i (triangle target) j) result value.new }
{
    let answer = coupling::calls::triangle_basis_mutual_inductance(
        rule,
        triangle(*source),
        i,
        triangle(*target),
        j,
    );
    hand_out(answer, 0.0, value)
}

// The block of the corners' inductances, row by row.
#[tactic(auto, using(crate::proofs::Lent::stopped, crate::proofs::Lent::passed))]
#[unsafe(no_mangle)]
pub extern "C" fn screens_mutual_inductance_block(
    rule: u32,
    source: &[f64; 9],
    target: &[f64; 9],
    out: &mut [f64; 9],
) -> u32
    ensures { WroteBlock (Calls.triangle_basis_mutual_inductance_block rule (triangle source) (triangle target)) out.old result out.new }
{
    let answer = coupling::calls::triangle_basis_mutual_inductance_block(
        rule,
        triangle(*source),
        triangle(*target),
    );
    match answer {
        Ok(values) => {
            *out = values;
            0
        }
        Err(refusal) => refusal.number(),
    }
}

// A block of nine numbers, row by row, between the values s of the source and t of the target.
#[unsafe(no_mangle)]
pub extern "C" fn screens_inductance_from_potentials(
    block: &[f64; 9],
    s: &[f64; 3],
    t: &[f64; 3],
) -> f64
    ensures { result ≡ Block.inductance_from_potential_vectors block.now (vector s) (vector t) }
{
    coupling::block::triangle_inductance_from_potential_vectors(*block, *s, *t)
}

// The halves of a triangle at its longest edge.
#[unsafe(no_mangle)]
pub extern "C" fn screens_longest_edge_bisection(t: &[f64; 9], out: &mut [f64; 18])
    ensures { out.new ≡ halves_of (Bisection.longest_edge_bisection (triangle t)) }
{
    *out = eighteen(panel_distance::bisection::longest_edge_bisection(triangle(*t)));
}
