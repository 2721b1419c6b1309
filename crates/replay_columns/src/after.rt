// What a call has left of a mesh' columns of nodes and of a matrix: the stored results, or on a refusal what was there before.
ghost use Rattle.std.specs.Prelude.{◌≡◌, ◌+◌, ◌≤◌, length};
ghost use Rattle.refusal.specs.Outcome.{number_of, value_or};
ghost use Rattle.replay_columns.specs.After as Spec;

use mesh::columns::NodeColumns;
use refusal::Refusal;
use replay_words::buffers::kept;
use replay_words::words::same_count;

// Three columns after the call, and before it.
#[tactic(auto, unfolding(crate::specs::After::kept_columns))]
pub fn kept_columns<A>(
    outcome: &Result<A, Refusal>,
    now: &NodeColumns,
    before: &NodeColumns,
    w: &[u64; 2048],
    k: usize,
) -> bool
    requires z_bound { k + length now.now.x.now + length now.now.y.now + length now.now.z.now ≤ 2048 }
    requires as_long { Spec.ColumnsAsLong now.now.x.now now.now.y.now now.now.z.now before.now.x.now before.now.y.now before.now.z.now }
    ensures { result ≡ Spec.kept_columns (number_of outcome.now) now.now.x.now now.now.y.now now.now.z.now
        before.now.x.now before.now.y.now before.now.z.now w.now k }
{
    let p = k + now.x.len();
    let q = p + now.y.len();
    let a = kept(outcome, now.x, before.x, w, k);
    let b = kept(outcome, now.y, before.y, w, p);
    let c = kept(outcome, now.z, before.z, w, q);
    a & b & c
}

// Number, count, matrix and columns after the call, and matrix and columns before it.
#[tactic(auto, unfolding(crate::specs::After::left_as_due))]
pub fn left_as_due(
    outcome: Result<usize, Refusal>,
    now: &NodeColumns,
    cells: &[f64],
    before: &NodeColumns,
    cells_before: &[f64],
    w: &[u64; 2048],
    k: usize,
) -> bool
    requires z_bound { k + 2 + length cells.now + length now.now.x.now + length now.now.y.now + length now.now.z.now ≤ 2048 }
    requires as_long { Spec.AsLong now.now.x.now now.now.y.now now.now.z.now cells.now
        before.now.x.now before.now.y.now before.now.z.now cells_before.now }
    ensures { result ≡ Spec.left_as_due (number_of outcome) (value_or 0 outcome) now.now.x.now now.now.y.now now.now.z.now cells.now
        before.now.x.now before.now.y.now before.now.z.now cells_before.now w.now k }
{
    let p = k + 2 + cells.len();
    let a = same_count(outcome, w, k);
    let b = kept(&outcome, cells, cells_before, w, k + 2);
    let c = kept_columns(&outcome, now, before, w, p);
    a & b & c
}
