// What crates share that have lists or columns: definitions and laws on numbers below a count, lists
// that are filled, lent values; whether three columns have the length due; a stretch of a list; and
// elements put into a buffer.
#![tactic(auto)]

ghost use Rattle.std.specs.Prelude.{◌≡◌, ◌+◌, ◌*◌, ◌≤◌, length};
ghost use Rattle.lists.specs.Columns.{columns_differ};
ghost use Rattle.lists.specs.Putting.{Put};
ghost use Rattle.lists.specs.Stretch as Spec;

// Of the lengths a, b, c some is not n.
#[tactic(auto, unfolding(crate::specs::Columns::columns_differ))]
pub fn columns_differ(n: usize, a: usize, b: usize, c: usize) -> bool
    ensures { result ≡ columns_differ n a b c }
{
    (a != n) | ((b != n) | (c != n))
}

// Puts items into out from `from` on, and answers the index behind them. By an index: the library's copy of slices would
// have the archive for C need `memmove` from outside.
pub fn put<T: Copy>(out: &mut [T], from: usize, items: &[T]) -> usize
    requires { from + length items.now ≤ length out.old }
    ensures { Put out.old from items.now out.new result }
{
    for k in 0..items.len() {
        out[from + k] = items[k];
    }
    from + items.len()
}

// w numbers from i · w on.
pub fn stretch(m: &[f64], w: usize, i: usize) -> &[f64]
    requires { i * w + w ≤ length m.now }
    ensures { result.now ≡ Spec.stretch m.now w i }
{
    let start = i * w;
    let end = start + w;
    &m[start..end]
}
