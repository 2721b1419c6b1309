// How far ln, asinh and atan2 are from a table of values, in units in the last place.
ghost use Rattle.std.specs.Prelude.{◌≡◌, Float};
ghost use Rattle.worked_examples.specs.Gaps as Spec;

use ieee754::canonical_bits;

// A bit pattern's place in the order of the numbers.
fn rank(b: u64) -> u64
    ensures { result ≡ Spec.rank b }
{
    if b < 0x8000_0000_0000_0000 {
        0x8000_0000_0000_0000 + b
    } else {
        0xffff_ffff_ffff_ffff - b + 1
    }
}

fn gap(x: f64, y: f64) -> u64
    ensures { result ≡ Spec.gap x y }
{
    let a = rank(canonical_bits(x));
    let b = rank(canonical_bits(y));
    if a < b { b - a } else { a - b }
}

// One row of a table: two arguments and the value, held to a function's that computes f.
fn row_gap<F: Fn(f64, f64) -> f64>(function: &F, row: &[f64; 3]) -> u64
    ghost f: { Float → Float → Float }
    requires callable { F.IsAlwaysCallable function.now }
    requires computes { Spec.Computes (F.post function.now) f }
    ensures { result ≡ Spec.row_gap f row.now }
{
    gap(function(row[0], row[1]), row[2])
}

// The worst gap of a table.
pub fn worst<F: Fn(f64, f64) -> f64>(function: F, table: &[[f64; 3]; 24]) -> u64
    ghost f: { Float → Float → Float }
    requires callable { F.IsAlwaysCallable function }
    requires computes { Spec.Computes (F.post function) f }
    ensures { result ≡ Spec.worst f table.now 24 }
{
    let mut worst = 0;
    for k in 0..24 {
        worst = row_gap(&function, &table[k]).max(worst);
    }
    worst
}
