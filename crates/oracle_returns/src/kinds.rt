// The kinds that are replayed.
ghost use Rattle.oracle_returns.specs.Kinds as Spec;

use replay_cases::case;
use replay_cases::run::Replay;

pub struct Returns;

impl Replay for Returns {
    ghost agrees = { Spec.agrees };

    #[tactic(auto, unfolding(crate::specs::Kinds::agrees))]
    fn agrees(kind: u64, b: &[u8; 16384]) -> bool {
        let w = case::words(b);
        let f = case::numbers(&w);
        let u = case::places(&w);
        replay_return::agree(kind, b, &f, &u, &w)
    }
}
