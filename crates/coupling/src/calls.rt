// Document 01's calls on two triangles. The rule is its number, a corner an index; any other is no such choice.
ghost use Rattle.std.specs.Prelude.{◌≡◌};
ghost use Rattle.coupling.specs.Calls as Spec;

use crate::block::mutual_inductance_block;
use crate::coupling::{geometric_coupling, geometric_coupling_regular};
use refusal::Refusal;
use tri::quadrature::quadrature_rule;

// Geometric coupling in cubic metres.
#[tactic(auto, unfolding(crate::specs::Calls::triangle_geometric_coupling, crate::specs::Calls::answer_of, crate::specs::Calls::refused))]
pub fn triangle_geometric_coupling(
    rule: u32,
    source: [[f64; 3]; 3],
    target: [[f64; 3]; 3],
) -> Result<f64, Refusal>
    ensures { Spec.answered result ≡ Spec.triangle_geometric_coupling rule source target }
{
    let Some(kind) = quadrature_rule(rule) else {
        return Err(Refusal::NoSuchChoice);
    };
    Ok(geometric_coupling(kind, source, target))
}

// The far rule's coupling from source to target, whatever the distance.
#[tactic(auto, unfolding(crate::specs::Calls::triangle_geometric_coupling_regular, crate::specs::Calls::answer_of, crate::specs::Calls::refused))]
pub fn triangle_geometric_coupling_regular(
    rule: u32,
    source: [[f64; 3]; 3],
    target: [[f64; 3]; 3],
) -> Result<f64, Refusal>
    ensures { Spec.answered result ≡ Spec.triangle_geometric_coupling_regular rule source target }
{
    let Some(kind) = quadrature_rule(rule) else {
        return Err(Refusal::NoSuchChoice);
    };
    Ok(geometric_coupling_regular(kind, source, target))
}

// The mutual inductance of each source corner and each target corner, in henries, row by row.
#[tactic(auto, unfolding(crate::specs::Calls::triangle_basis_mutual_inductance_block, crate::specs::Calls::block_of))]
pub fn triangle_basis_mutual_inductance_block(
    rule: u32,
    source: [[f64; 3]; 3],
    target: [[f64; 3]; 3],
) -> Result<[f64; 9], Refusal>
    ensures { Spec.block_answered result ≡ Spec.triangle_basis_mutual_inductance_block rule source target }
{
    let Some(kind) = quadrature_rule(rule) else {
        return Err(Refusal::NoSuchChoice);
    };
    Ok(mutual_inductance_block(kind, source, target))
}

// The entry of source corner i and target corner j.
#[tactic(auto, unfolding(crate::specs::Calls::triangle_basis_mutual_inductance, crate::specs::Calls::answer_of, crate::specs::Calls::refused))]
pub fn triangle_basis_mutual_inductance(
    rule: u32,
    source: [[f64; 3]; 3],
    i: usize,
    target: [[f64; 3]; 3],
    j: usize,
) -> Result<f64, Refusal>
    ensures { Spec.answered result ≡ Spec.triangle_basis_mutual_inductance rule source i target j }
{
    if i > 2 {
        return Err(Refusal::NoSuchChoice);
    }
    if j > 2 {
        return Err(Refusal::NoSuchChoice);
    }
    let Some(kind) = quadrature_rule(rule) else {
        return Err(Refusal::NoSuchChoice);
    };
    let values = mutual_inductance_block(kind, source, target);
    Ok(values[i * 3 + j])
}
