// The display value.
ghost use Rattle.std.specs.Prelude.{◌≡◌};
ghost use Rattle.replay_maps.specs.Shown as Spec;

use replay_words::words::same_refusal;

// The whole number of a word of two's complement.
fn signed(n: u64) -> i64
    ensures { result ≡ Spec.signed n }
{
    if n > 1000000000000000 {
        let size = 0xffff_ffff_ffff_ffff - n;
        if size < 1000000000000000 {
            return 0 - ((size + 1) as i64);
        }
        return 1000000000000001;
    }
    n as i64
}

pub fn display(f: &[f64; 2048], w: &[u64; 2048]) -> bool
    ensures { result ≡ Spec.display f.now w.now }
{
    let outcome = display::display(f[0]);
    let a = same_refusal(&outcome, w, 1);
    a & (outcome.unwrap_or(0) == signed(w[2]))
}

// By the kind's number.
#[tactic(auto, unfolding(crate::specs::Shown::shown_agree))]
pub fn agree(kind: u64, f: &[f64; 2048], w: &[u64; 2048]) -> bool
    ensures { result ≡ Spec.shown_agree kind f.now w.now }
{
    match kind {
        35 => display(f, w),
        _ => false,
    }
}
