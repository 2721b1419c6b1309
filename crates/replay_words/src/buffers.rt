// A lent buffer, compared whole: with the stored results, or on a refusal with the pattern that it was lent with.
ghost use Rattle.std.specs.Prelude.{◌≡◌, ◌+◌, ◌≤◌, ℕ, eqb, length, zip};
ghost use Rattle.std.specs.List.{list_all};
ghost use Rattle.std.specs.Float.{nan};
ghost use Rattle.ieee754.specs.Ieee754.{canonical_bits};
ghost use Rattle.refusal.specs.Outcome.{number_of};
ghost use Rattle.replay_words.specs.Buffers as Spec;

use refusal::Refusal;

// What a case has as one word: a number, by its bits with every NaN as one, or a place.
pub trait Stored: Copy {
    ghost word: { Self → ℕ };

    // What a list has past its end.
    ghost beyond: { Self };

    // The word of the 77 that a buffer is lent with.
    ghost pattern: { ℕ };

    fn pattern() -> u64
        ensures { result ≡ pattern };

    fn word(self) -> u64
        ensures { result ≡ word self };
}

impl Stored for f64 {
    ghost word = { canonical_bits };

    ghost beyond = { nan };

    ghost pattern = { Spec.pattern };

    fn pattern() -> u64 {
        0x4053_4000_0000_0000
    }

    fn word(self) -> u64 {
        ieee754::canonical_bits(self)
    }
}

impl Stored for usize {
    ghost word = { λ n. n };

    ghost beyond = { 0 };

    ghost pattern = { 77 };

    fn pattern() -> u64 {
        77
    }

    fn word(self) -> u64 {
        self as u64
    }
}

// The words of the case that begin here.
fn as_stored<T: Stored>(v: &[T], w: &[u64]) -> bool
    ensures { result ≡ list_all (λ p. eqb (T.word p.0) p.1) (zip v.now w.now) }
{
    v.iter().zip(w).all(|(x, due)| x.word() == *due)
}

fn untouched<T: Stored>(v: &[T]) -> bool
    ensures { result ≡ list_all (λ x. eqb (T.word x) T.pattern) v.now }
{
    v.iter().all(|x| x.word() == T::pattern())
}

pub fn held<T: Stored, A>(outcome: &Result<A, Refusal>, v: &[T], w: &[u64; 2048], k: usize) -> bool
    requires { k + length v.now ≤ 2048 }
    ensures { result ≡ Spec.held_by T.word T.beyond T.pattern (number_of outcome.now) v.now w.now k }
{
    match outcome {
        Ok(_) => as_stored(v, &w[k..]),
        Err(_) => untouched(v),
    }
}

// Two buffers of one length.
fn same<T: Stored>(v: &[T], u: &[T]) -> bool
    requires { length v.now ≡ length u.now }
    ensures { result ≡ list_all (λ p. eqb (T.word p.0) (T.word p.1)) (zip v.now u.now) }
{
    v.iter().zip(u).all(|(x, y)| x.word() == y.word())
}

// A buffer that a call changes: the stored results, or on a refusal what it held before.
pub fn kept<A>(
    outcome: &Result<A, Refusal>,
    v: &[f64],
    before: &[f64],
    w: &[u64; 2048],
    k: usize,
) -> bool
    requires { (k + length v.now ≤ 2048) × (length v.now ≡ length before.now) }
    ensures { result ≡ Spec.kept (number_of outcome.now) v.now before.now w.now k }
{
    match outcome {
        Ok(_) => as_stored(v, &w[k..]),
        Err(_) => same(v, before),
    }
}
