// Bytes of a stored case: their length in word 0, then eight to a word.
ghost use Rattle.std.specs.Prelude.{◌≡◌, ◌≤◌};
ghost use Rattle.refusal.specs.Outcome.{number_of};
ghost use Rattle.replay_words.specs.Bytes as Spec;

use refusal::Refusal;

// The place behind n bytes that begin at place 1.
pub fn bytes_end(n: usize) -> usize
    requires { n ≤ 512 }
    ensures { (result ≡ Spec.bytes_end n) × (result ≤ 65) }
{
    1 + (n + 7) / 8
}

// Bytes that a call may change: the stored results, or on a refusal what they were before.
pub fn kept_bytes<A>(outcome: &Result<A, Refusal>, a: &[u8], before: &[u8], stored: &[u8]) -> bool
    ensures { result ≡ Spec.kept_bytes (number_of outcome.now) a.now before.now stored.now }
{
    match outcome {
        Ok(_) => a == stored,
        Err(_) => a == before,
    }
}
