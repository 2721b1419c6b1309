// Replays stored answers of the original: the kinds of fixed length. Each case is
// worked out by ours and every number is compared, in bits. A case of another kind differs.
#![tactic(auto)]

mod kinds;

use kinds::Calls;
use replay_cases::run::run;

fn main() {
    run::<Calls>();
}
