// A map of one row a node and one column a source, applied to source coefficients.
ghost use Rattle.std.specs.Prelude.{◌≡◌, ◌<◌, ◌≤◌, ◌+◌, ◌*◌, length};
ghost use Rattle.binary64.specs.Binary64.{plus_zero};
ghost use Rattle.refusal.specs.Outcome.{number_of, value_or};
ghost use Rattle.linkage.specs.Flux as Spec;
ghost use Rattle.linkage.specs.Flux.{Linked};

use refusal::Refusal;

// 8
#[tactic(auto, unfolding(crate::specs::Flux::lacks_sources))]
pub fn lacks_sources(size: usize, sources: usize, nodes: usize) -> bool
    ensures { result ≡ Spec.lacks_sources size sources nodes }
{
    (sources == 0) & ((size != 0) | (nodes != 0))
}

// 9
#[tactic(auto, unfolding(crate::specs::Flux::broken_rows))]
pub fn broken_rows(size: usize, sources: usize) -> bool
    ensures { result ≡ Spec.broken_rows size sources }
{
    sources != 0 && size % sources != 0
}

// 10
#[tactic(auto, unfolding(crate::specs::Flux::rows_differ))]
fn rows_differ(size: usize, sources: usize, nodes: usize) -> bool
    ensures { result ≡ Spec.rows_differ size sources nodes }
{
    sources != 0 && nodes != size / sources
}

// 8, 9 and 10. No product is formed: there is no limit on the sizes.
#[tactic(auto, unfolding(crate::specs::Flux::map_refusal, refusal::specs::Checks::first))]
fn check_map(size: usize, sources: usize, nodes: usize) -> Result<(), Refusal>
    ensures { number_of result ≡ Spec.map_refusal size sources nodes }
{
    if lacks_sources(size, sources, nodes) {
        return Err(Refusal::Coefficients);
    }
    if broken_rows(size, sources) {
        return Err(Refusal::Map);
    }
    if rows_differ(size, sources, nodes) {
        return Err(Refusal::Flux);
    }
    Ok(())
}

// The flux of one row: its products with the coefficients, added one after the other from +0 on.
#[tactic(auto, using(lists::proofs::Sums::sum_more), unfolding(lists::specs::Sums::running_sum))]
pub fn flux_of_row(row: &[f64], coefficients: &[f64]) -> f64
    requires { length row.now ≡ length coefficients.now }
    ensures { result ≡ Spec.flux_of_row row.now coefficients.now }
{
    let mut psi = 0.0;
    for (entry, coefficient) in row.iter().zip(coefficients) {
        psi += entry * coefficient;
    }
    psi
}

// The flux of row i of a map.
fn row_flux(map: &[f64], coefficients: &[f64], i: usize) -> f64
    requires { i * length coefficients.now + length coefficients.now ≤ length map.now }
    ensures { result ≡ Spec.row_flux map.now coefficients.now i }
{
    let row = lists::stretch(map, coefficients.len(), i);
    flux_of_row(row, coefficients)
}

// The flux of every row.
fn fill_flux(map: &[f64], coefficients: &[f64], out: &mut [f64])
    requires { length map.now ≡ length out.old * length coefficients.now }
    ensures { out.new ≡ Spec.flux_linkage map.now coefficients.now (length out.old) }
{
    for (i, flux) in out.iter_mut().enumerate() {
        *flux = row_flux(map, coefficients, i);
    }
}

// The flux linkage of each node.
pub fn triangle_mesh_flux_linkage_from_source_coefficients(
    map: &[f64],
    coefficients: &[f64],
    out: &mut [f64],
) -> Result<(), Refusal>
    ensures { Linked map.now coefficients.now out.old (number_of result) out.new }
{
    check_map(map.len(), coefficients.len(), out.len())?;
    fill_flux(map, coefficients, out);
    Ok(())
}

// Nodal values times flux, over all rows.
#[tactic(auto, using(lists::proofs::Sums::sum_more), unfolding(lists::specs::Sums::running_sum))]
fn add_interaction(map: &[f64], values: &[f64], coefficients: &[f64]) -> f64
    requires { length map.now ≡ length values.now * length coefficients.now }
    ensures { result ≡ Spec.interaction_energy map.now values.now coefficients.now }
{
    let mut out = 0.0;
    for (i, value) in values.iter().enumerate() {
        out += value * row_flux(map, coefficients, i);
    }
    out
}

// The interaction energy of nodal values and source coefficients.
pub fn triangle_mesh_interaction_energy_from_source_coefficients(
    map: &[f64],
    values: &[f64],
    coefficients: &[f64],
) -> Result<f64, Refusal>
    ensures { Spec.InteractionAnswered map.now values.now coefficients.now (number_of result) (value_or plus_zero result) }
{
    check_map(map.len(), coefficients.len(), values.len())?;
    Ok(add_interaction(map, values, coefficients))
}
