// The row of a node, as that stretch of the caller's own numbers; empty on a refusal. One call gives its number, another the row,
// and a third either. A matrix's and a map's are twins in shape alone: their checks are other lists.
ghost use Rattle.std.specs.Prelude.{◌≡◌, length, MatchResult, []};
ghost use Rattle.refusal.specs.Outcome.{number_of};
ghost use Rattle.linkage.specs.Row as Spec;

use refusal::{Refusal, number_of};

// The row of a node in a matrix for n nodes, or its refusal.
pub fn triangle_mesh_matrix_row_or_refusal(
    matrix: &[f64],
    n: usize,
    node: usize,
) -> Result<&[f64], Refusal>
    ensures number { number_of result ≡ Spec.matrix_row_refusal (length matrix.now) n node }
    ensures row { let due = Spec.matrix_row matrix.now n node in MatchResult result (λ row. row.now ≡ due) (λ refusal. [] ≡ due) }
{
    crate::energy::check_energy(n, matrix.len())?;
    if n <= node {
        return Err(Refusal::NoSuchNode);
    }
    Ok(lists::stretch(matrix, n, node))
}

// The number of the row of a node in a matrix for n nodes.
pub fn triangle_mesh_matrix_row_refusal(matrix: &[f64], n: usize, node: usize) -> u32
    ensures { result ≡ Spec.matrix_row_refusal (length matrix.now) n node }
{
    number_of(&triangle_mesh_matrix_row_or_refusal(matrix, n, node))
}

// The row of a node in a matrix for n nodes.
pub fn triangle_mesh_matrix_row(matrix: &[f64], n: usize, node: usize) -> &[f64]
    ensures { result.now ≡ Spec.matrix_row matrix.now n node }
{
    triangle_mesh_matrix_row_or_refusal(matrix, n, node).unwrap_or(&matrix[..0])
}

// The rows of a map for so many sources.
#[tactic(auto, unfolding(crate::specs::Row::row_count))]
fn row_count(size: usize, sources: usize) -> usize
    ensures { result ≡ Spec.row_count size sources }
{
    if sources == 0 { 0 } else { size / sources }
}

// The row of a node in a map for so many sources, or its refusal.
#[tactic(auto, unfolding(crate::specs::Row::map_row_refusal, crate::specs::Row::row_after, refusal::specs::Checks::first))]
pub fn triangle_mesh_map_row_or_refusal(
    map: &[f64],
    sources: usize,
    node: usize,
) -> Result<&[f64], Refusal>
    ensures number { number_of result ≡ Spec.map_row_refusal (length map.now) sources node }
    ensures row { let due = Spec.map_row map.now sources node in MatchResult result (λ row. row.now ≡ due) (λ refusal. [] ≡ due) }
{
    if crate::flux::lacks_sources(map.len(), sources, 0) {
        return Err(Refusal::Coefficients);
    }
    if crate::flux::broken_rows(map.len(), sources) {
        return Err(Refusal::Map);
    }
    if row_count(map.len(), sources) <= node {
        return Err(Refusal::NoSuchNode);
    }
    Ok(lists::stretch(map, sources, node))
}

// The number of the row of a node in a map for so many sources.
pub fn triangle_mesh_map_row_refusal(map: &[f64], sources: usize, node: usize) -> u32
    ensures { result ≡ Spec.map_row_refusal (length map.now) sources node }
{
    number_of(&triangle_mesh_map_row_or_refusal(map, sources, node))
}

// The row of a node in a map for so many sources.
pub fn triangle_mesh_map_row(map: &[f64], sources: usize, node: usize) -> &[f64]
    ensures { result.now ≡ Spec.map_row map.now sources node }
{
    triangle_mesh_map_row_or_refusal(map, sources, node).unwrap_or(&map[..0])
}
