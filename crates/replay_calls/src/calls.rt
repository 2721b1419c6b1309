// Calls with a rule, a panel's record, and its halves.
ghost use Rattle.std.specs.Prelude.{◌≡◌};
ghost use Rattle.replay_calls.specs.Kinds as Spec;

use potential::UniformTriangle;
use replay_words::words::{
    rule_of, same_nine, same_number, same_refusal, same_triangle, same_value, same_vector, triangle,
};

pub fn geometric_coupling(f: &[f64; 2048], w: &[u64; 2048]) -> bool
    ensures { result ≡ Spec.geometric_coupling f.now w.now }
{
    let rule = rule_of(w[0]);
    let outcome = coupling::calls::triangle_geometric_coupling(
        rule,
        triangle(f, 1),
        triangle(f, 10),
    );
    same_value(outcome, w, 19)
}

pub fn geometric_coupling_regular(f: &[f64; 2048], w: &[u64; 2048]) -> bool
    ensures { result ≡ Spec.geometric_coupling_regular f.now w.now }
{
    let rule = rule_of(w[0]);
    let outcome = coupling::calls::triangle_geometric_coupling_regular(
        rule,
        triangle(f, 1),
        triangle(f, 10),
    );
    same_value(outcome, w, 19)
}

pub fn mutual_inductance_block(f: &[f64; 2048], w: &[u64; 2048]) -> bool
    ensures { result ≡ Spec.mutual_inductance_block f.now w.now }
{
    let rule = rule_of(w[0]);
    let outcome = coupling::calls::triangle_basis_mutual_inductance_block(
        rule,
        triangle(f, 1),
        triangle(f, 10),
    );
    let refusal = same_refusal(&outcome, w, 19);
    let cells = same_nine(outcome.unwrap_or([0.0; 9]), w, 20);
    refusal & cells
}

pub fn mutual_inductance(f: &[f64; 2048], w: &[u64; 2048]) -> bool
    ensures { result ≡ Spec.mutual_inductance f.now w.now }
{
    let rule = rule_of(w[0]);
    let i = w[10] as usize;
    let j = w[20] as usize;
    let outcome = coupling::calls::triangle_basis_mutual_inductance(
        rule,
        triangle(f, 1),
        i,
        triangle(f, 11),
        j,
    );
    same_value(outcome, w, 21)
}

pub fn bisect(f: &[f64; 2048], w: &[u64; 2048]) -> bool
    ensures { result ≡ Spec.bisect f.now w.now }
{
    let h = panel_distance::bisection::longest_edge_bisection(triangle(f, 0));
    let a = same_triangle(h[0], w, 9);
    let b = same_triangle(h[1], w, 18);
    a & b
}

pub fn panel_record(f: &[f64; 2048], w: &[u64; 2048]) -> bool
    ensures { result ≡ Spec.panel_record f.now w.now }
{
    let p = UniformTriangle::new(triangle(f, 0));
    let a = same_triangle(p.nodes, w, 9);
    let b = same_vector(p.normal, w, 18);
    let c = same_triangle(p.edge_tangent, w, 21);
    let d = same_triangle(p.edge_outward, w, 30);
    let e = same_vector(p.edge_length, w, 39);
    let g = same_number(p.max_edge, w, 42);
    a & b & c & d & e & g
}

// By the kind's number.
#[tactic(auto, unfolding(crate::specs::Kinds::calls_agree, crate::specs::Kinds::chosen))]
pub fn agree(kind: u64, f: &[f64; 2048], w: &[u64; 2048]) -> bool
    ensures { result ≡ Spec.calls_agree kind f.now w.now }
{
    match kind {
        17 => geometric_coupling(f, w),
        39 => geometric_coupling_regular(f, w),
        18 => mutual_inductance_block(f, w),
        19 => mutual_inductance(f, w),
        16 => bisect(f, w),
        12 => panel_record(f, w),
        _ => false,
    }
}
