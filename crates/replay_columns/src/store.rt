// The parts of a store that begins at place q of a case: marks, names, then the columns x, y, z; behind them a name. The case's
// bytes stand in b, eight to a word, and its words in f as numbers.
ghost use Rattle.std.specs.Prelude.{◌≡◌, ◌+◌, ◌*◌, ◌≤◌, length};
ghost use Rattle.replay_columns.specs.Store as Spec;

use replay_words::bytes::bytes_end;
use replay_words::words::cut_at;

// The place behind part i, whose length stands at place k.
fn part_end(w: &[u64; 2048], k: usize, i: usize) -> usize
    requires { k ≤ 1280 }
    ensures { (result ≡ Spec.part_end w.now k i) × (result ≤ k + 81) }
{
    let n = cut_at(w, k, 80);
    if i < 2 {
        return k + bytes_end(n);
    }
    k + 1 + n
}

// The place of the length of part i; that of part 5 is the place of the name.
pub fn part_at(w: &[u64; 2048], q: usize, i: usize) -> usize
    requires { (q ≤ 875) × (i ≤ 5) }
    ensures { (result ≡ Spec.part_at w.now q i) × (result ≤ q + 81 * i) }
{
    let mut at = q;
    for j in 0..i {
        at = part_end(w, at, j);
    }
    at
}

// The elements of part i, so many to a word: bytes or numbers.
pub fn part<'a, T, const PER_WORD: usize>(
    all: &'a [T],
    w: &[u64; 2048],
    q: usize,
    i: usize,
) -> &'a [T]
    requires place { (q ≤ 875) × (i ≤ 4) }
    requires size { (1 ≤ PER_WORD) × (PER_WORD ≤ 8) × (length all.now ≡ PER_WORD * 2048) }
    ensures { (result.now ≡ Spec.part_from PER_WORD all.now w.now (Spec.part_at w.now q i)) × (length result.now ≤ 80) }
{
    let k = part_at(w, q, i);
    let n = cut_at(w, k, 80);
    let from = PER_WORD * (k + 1);
    &all[from..from + n]
}

// The name in the word at place k.
pub fn name_at(b: &[u8; 16384], k: usize) -> [u8; 8]
    requires { k ≤ 1280 }
    ensures { result ≡ Spec.name_at b.now k }
{
    let j = 8 * k;
    [
        b[j],
        b[j + 1],
        b[j + 2],
        b[j + 3],
        b[j + 4],
        b[j + 5],
        b[j + 6],
        b[j + 7],
    ]
}
