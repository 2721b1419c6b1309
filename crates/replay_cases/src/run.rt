// A program that replays the cases of standard input.
ghost use Rattle.std.specs.Prelude.{◌≡◌, ◌<◌, ℕ, List, Bool};
ghost use Rattle.replay_cases.specs.Tally as Spec;

use crate::tally::Tally;
use crate::{input, print};

// Whether a case's results are ours, from its kind and its bytes behind the head.
pub trait Replay {
    ghost agrees: { ℕ → List ℕ → Bool };

    fn agrees(kind: u64, b: &[u8; 16384]) -> bool
        ensures { result ≡ agrees kind b.now };
}

// A case by its kind and its bytes behind the head: counted, and as differing unless its results are ours.
fn verdict<R: Replay>(tally: &mut Tally, kind: usize, b: &[u8; 16384])
    requires { kind < 128 }
    ensures cases_value { tally.new.cases ≡ Spec.counted tally.old.cases kind }
    ensures differ_value { tally.new.differ ≡ Spec.judged (R.agrees kind b.now) tally.old.differ kind }
{
    let agrees = R::agrees(kind as u64, b);
    tally.count(kind, agrees);
}

// The next case, worked out and counted; false if there is none.
fn replayed<R: Replay>(tally: &mut Tally) -> bool
    ensures { Spec.Turn R.agrees tally.old.cases tally.old.differ result tally.new.cases tally.new.differ }
{
    match input::next() {
        None => false,
        Some(case) => {
            verdict::<R>(tally, case.kind, &case.bytes);
            true
        }
    }
}

// Replays at most a million cases, prints the table and answers how many differ.
pub fn run<R: Replay>() -> u64
    ensures { Spec.Replayed R.agrees result }
{
    input::mark();
    let mut tally = Tally::none();
    for _ in 0..1_000_000u32 {
        if !replayed::<R>(&mut tally) {
            break;
        }
    }
    print::table(&tally)
}
