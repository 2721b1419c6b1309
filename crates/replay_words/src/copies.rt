// Elements that a call may change, copied from the case.
ghost use Rattle.std.specs.Prelude.{◌≡◌, ◌≤◌, length};
ghost use Rattle.replay_words.specs.Words.{part};

// At the front of as many as the longest column, matrix or part of a store has; behind them fillers.
pub fn copied<T: Copy, const N: usize>(v: &[T], filler: T) -> [T; N]
    requires { length v.now ≤ N }
    ensures { part result 0 (length v.now) ≡ v.now }
{
    let mut copy = [filler; N];
    copy[..v.len()].copy_from_slice(v);
    copy
}
