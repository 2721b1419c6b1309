// A matrix contracted with nodal values.
ghost use Rattle.std.specs.Prelude.{◌≡◌, ◌*◌, length};
ghost use Rattle.binary64.specs.Binary64.{◌⊗◌, at, plus_zero};
ghost use Rattle.lists.specs.Sums.{running_sum};
ghost use Rattle.refusal.specs.Outcome.{number_of, value_or};
ghost use Rattle.linkage.specs.Energy as Spec;

use refusal::Refusal;

// 11 and 7: n nodal values against a matrix of so many numbers.
#[tactic(auto, unfolding(crate::specs::Energy::energy_refusal, refusal::specs::Checks::first))]
pub fn check_energy(n: usize, size: usize) -> Result<(), Refusal>
    ensures { number_of result ≡ Spec.energy_refusal n size }
{
    if mesh::MAX_NODES < n {
        return Err(Refusal::TooLarge);
    }
    if size != n * n {
        return Err(Refusal::Matrix);
    }
    Ok(())
}

// 5, 11 and 7.
#[tactic(auto, unfolding(crate::specs::Energy::energy_refusal, crate::specs::Energy::vectors_refusal, refusal::specs::Checks::first))]
fn check_vectors(n: usize, targets: usize, size: usize) -> Result<(), Refusal>
    ensures { number_of result ≡ Spec.vectors_refusal n targets size }
{
    if targets != n {
        return Err(Refusal::NodalValues);
    }
    check_energy(n, size)
}

// The products of one row, source · row_j · t_j, added to x one after the other.
#[tactic(auto, unfolding(lists::specs::Sums::running_sum))]
fn add_row(row: &[f64], source: f64, t: &[f64], x: f64) -> f64
    requires { length row.now ≡ length t.now }
    ensures { result ≡ running_sum x (λ j. source ⊗ at row.now j ⊗ at t.now j) (length t.now) }
{
    let mut out = x;
    for (entry, target) in row.iter().zip(t) {
        out += source * entry * target;
    }
    out
}

// All rows, one after the other from +0 on.
#[tactic(auto, using(crate::proofs::Sums::rows_more), unfolding(crate::specs::Energy::rows_added))]
fn add_rows(matrix: &[f64], s: &[f64], t: &[f64]) -> f64
    requires { (length t.now ≡ length s.now) × (length matrix.now ≡ length s.now * length s.now) }
    ensures { result ≡ Spec.from_potential_vectors matrix.now s.now t.now }
{
    let mut out = 0.0;
    for (i, source) in s.iter().enumerate() {
        let row = lists::stretch(matrix, s.len(), i);
        out = add_row(row, *source, t, out);
    }
    out
}

// The matrix between source values s and target values t.
pub fn triangle_mesh_inductance_from_potential_vectors(
    matrix: &[f64],
    s: &[f64],
    t: &[f64],
) -> Result<f64, Refusal>
    ensures { Spec.VectorsAnswered matrix.now s.now t.now (number_of result) (value_or plus_zero result) }
{
    check_vectors(s.len(), t.len(), matrix.len())?;
    Ok(add_rows(matrix, s, t))
}

// Half of the matrix between s and itself.
pub fn triangle_mesh_inductive_energy(matrix: &[f64], s: &[f64]) -> Result<f64, Refusal>
    ensures { Spec.EnergyAnswered matrix.now s.now (number_of result) (value_or plus_zero result) }
{
    let both = triangle_mesh_inductance_from_potential_vectors(matrix, s, s)?;
    Ok(0.5 * both)
}
