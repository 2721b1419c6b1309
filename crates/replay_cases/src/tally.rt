// How many cases of each kind there are, and how many differ.
ghost use Rattle.std.specs.Prelude.{◌≡◌, ◌<◌};
ghost use Rattle.replay_cases.specs.Tally as Spec;

#[derive(Drop)]
pub struct Tally {
    pub cases: [u64; 128],
    pub differ: [u64; 128],
}

// One more of kind k.
fn add_one(counts: &mut [u64; 128], k: usize)
    requires { k < 128 }
    ensures { counts.new ≡ Spec.counted counts.old k }
{
    counts[k] = counts[k].wrapping_add(1);
}

impl Tally {
    // No case of any kind.
    pub fn none() -> Tally
        ensures { (result.cases ≡ Spec.none) × (result.differ ≡ Spec.none) }
    {
        Tally {
            cases: [0; 128],
            differ: [0; 128],
        }
    }

    // A case of kind k, which agrees or differs.
    pub fn count(&mut self, k: usize, agrees: bool)
        requires { k < 128 }
        ensures cases_value { self.new.cases ≡ Spec.counted self.old.cases k }
        ensures differ_value { self.new.differ ≡ Spec.judged agrees self.old.differ k }
    {
        add_one(&mut self.cases, k);
        if !agrees {
            add_one(&mut self.differ, k);
        }
    }
}
