// Replays stored answers of the original: the inductance matrix and the move of a node. Each case is
// worked out by ours and every number is compared, in bits. A case of another kind differs.
#![tactic(auto)]

mod kinds;

use kinds::Matrices;
use replay_cases::run::run;

fn main() {
    run::<Matrices>();
}
