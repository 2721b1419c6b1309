// The mutual inductance of the corners of two triangles: nine numbers, row by row.
ghost use Rattle.std.specs.Prelude.{◌≡◌};
ghost use Rattle.coupling.specs.Block as Spec;

use crate::coupling::geometric_coupling;
use boundary_element::current_density::triangle_basis_current_densities;
use tri::quadrature::QuadratureKind;

// The entry of two corners, of the geometric coupling g and their densities.
#[tactic(auto, unfolding(crate::specs::Block::entry))]
fn entry(g: f64, ksrc: [f64; 3], ktgt: [f64; 3]) -> f64
    ensures { result ≡ Spec.entry g ksrc ktgt }
{
    math::mu0_over_4pi() * g * math::dot3(ksrc, ktgt)
}

// The entries of one source corner.
#[tactic(auto, unfolding(crate::specs::Block::block_row))]
fn block_row(g: f64, ksrc: [f64; 3], ktgt: [[f64; 3]; 3]) -> [f64; 3]
    ensures { result ≡ Spec.block_row g ksrc ktgt }
{
    [
        entry(g, ksrc, ktgt[0]),
        entry(g, ksrc, ktgt[1]),
        entry(g, ksrc, ktgt[2]),
    ]
}

// The block of the geometric coupling g and the densities of source and target.
#[tactic(auto, unfolding(crate::specs::Block::block_from_coupling, crate::specs::Block::block_row))]
pub fn block_from_coupling(g: f64, ksrc: [[f64; 3]; 3], ktgt: [[f64; 3]; 3]) -> [f64; 9]
    ensures { result ≡ Spec.block_from_coupling g ksrc ktgt }
{
    let a = block_row(g, ksrc[0], ktgt);
    let b = block_row(g, ksrc[1], ktgt);
    let c = block_row(g, ksrc[2], ktgt);
    [a[0], a[1], a[2], b[0], b[1], b[2], c[0], c[1], c[2]]
}

// triangle_basis_mutual_inductance_block in the Rust, in henries.
#[tactic(auto, unfolding(crate::specs::Block::mutual_inductance_block))]
pub fn mutual_inductance_block(
    kind: QuadratureKind,
    source: [[f64; 3]; 3],
    target: [[f64; 3]; 3],
) -> [f64; 9]
    ensures { result ≡ Spec.mutual_inductance_block kind source target }
{
    let g = geometric_coupling(kind, source, target);
    let ksrc = triangle_basis_current_densities(source);
    let ktgt = triangle_basis_current_densities(target);
    block_from_coupling(g, ksrc, ktgt)
}

// The block m between the potentials s of the source and t of the target; it takes any numbers.
#[tactic(auto, unfolding(crate::specs::Block::inductance_from_potential_vectors))]
pub fn triangle_inductance_from_potential_vectors(m: [f64; 9], s: [f64; 3], t: [f64; 3]) -> f64
    ensures { result ≡ Spec.inductance_from_potential_vectors m s t }
{
    let row0 = 0.0 + s[0] * m[0] * t[0] + s[0] * m[1] * t[1] + s[0] * m[2] * t[2];
    let row1 = row0 + s[1] * m[3] * t[0] + s[1] * m[4] * t[1] + s[1] * m[5] * t[2];
    row1 + s[2] * m[6] * t[0] + s[2] * m[7] * t[1] + s[2] * m[8] * t[2]
}
