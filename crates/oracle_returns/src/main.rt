// Replays stored answers of the original: returns to named shapes. Each case is worked out by ours and every number is
// compared, in bits. A case of another kind differs.
#![tactic(auto)]

mod kinds;

use kinds::Returns;
use replay_cases::run::run;

fn main() {
    run::<Returns>();
}
