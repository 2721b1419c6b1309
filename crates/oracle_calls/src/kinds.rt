// The kinds that are replayed.
ghost use Rattle.std.specs.Prelude.{◌≡◌};
ghost use Rattle.oracle_calls.specs.Kinds as Spec;

use replay_calls::{calls, numbers, pairs, panels, vectors};
use replay_cases::case;
use replay_cases::run::Replay;

// Whether the results of a case of fixed length are ours, from its numbers and its words.
#[tactic(auto, unfolding(crate::specs::Kinds::calls_agree_all))]
fn calls_agree(kind: u64, f: &[f64; 2048], w: &[u64; 2048]) -> bool
    ensures { result ≡ Spec.calls_agree_all kind f.now w.now }
{
    let a = numbers::agree(kind, f, w);
    let b = vectors::agree(kind, f, w);
    let c = panels::agree(kind, f, w);
    let d = pairs::agree(kind, f, w);
    let e = calls::agree(kind, f, w);
    a | b | c | d | e
}

pub struct Calls;

impl Replay for Calls {
    ghost agrees = { Spec.agrees };

    #[tactic(auto, unfolding(crate::specs::Kinds::agrees))]
    fn agrees(kind: u64, b: &[u8; 16384]) -> bool {
        let w = case::words(b);
        let f = case::numbers(&w);
        calls_agree(kind, &f, &w)
    }
}
