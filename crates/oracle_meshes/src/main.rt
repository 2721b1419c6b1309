// Replays stored answers of the original: meshes without their matrix, rows, energies and maps, display values, panel
// files, and shapes that are saved and dropped. Each case is worked out by ours and every number is compared, in bits. A
// case of another kind differs.
#![tactic(auto)]

mod kinds;

use kinds::Meshes;
use replay_cases::run::run;

fn main() {
    run::<Meshes>();
}
