// The kinds that are replayed.
ghost use Rattle.std.specs.Prelude.{◌≡◌};
ghost use Rattle.oracle_matrices.specs.Kinds as Spec;

use replay_cases::case;
use replay_cases::run::Replay;

// Whether the results of a case with a matrix are ours, from its numbers, its places and its words.
#[tactic(auto, unfolding(crate::specs::Kinds::matrices_agree_all))]
fn matrices_agree(kind: u64, f: &[f64; 2048], u: &[usize; 2048], w: &[u64; 2048]) -> bool
    ensures { result ≡ Spec.matrices_agree_all kind f.now u.now w.now }
{
    let a = replay_matrices::agree(kind, f, u, w);
    let b = replay_move::agree(kind, f, u, w);
    a | b
}

pub struct Matrices;

impl Replay for Matrices {
    ghost agrees = { Spec.agrees };

    #[tactic(auto, unfolding(crate::specs::Kinds::agrees))]
    fn agrees(kind: u64, b: &[u8; 16384]) -> bool {
        let w = case::words(b);
        let f = case::numbers(&w);
        let u = case::places(&w);
        matrices_agree(kind, &f, &u, &w)
    }
}
