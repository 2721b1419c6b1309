// Rows: the length of the matrix or map, its width and a node; the answer is a number, where the row begins and how long it is.
ghost use Rattle.std.specs.Prelude.{◌≡◌};
ghost use Rattle.replay_maps.specs.Maps as Spec;

use replay_words::words::{cut_at, same_place};

pub fn row_matrix(f: &[f64; 2048], w: &[u64; 2048]) -> bool
    ensures { result ≡ Spec.row_matrix f.now w.now }
{
    let size = cut_at(w, 0, 2048);
    let n = w[1] as usize;
    let node = w[2] as usize;
    let all = &f[..];
    let matrix = &all[0..size];
    let mut offset = 0usize;
    let mut count = 0usize;
    let r = screens_assembly::assembly::screens_matrix_row(
        matrix,
        n,
        node,
        &mut offset,
        &mut count,
    );
    same_place(r, offset, count, w, 3)
}

pub fn row_map(f: &[f64; 2048], w: &[u64; 2048]) -> bool
    ensures { result ≡ Spec.row_map f.now w.now }
{
    let size = cut_at(w, 0, 2048);
    let n = w[1] as usize;
    let node = w[2] as usize;
    let all = &f[..];
    let map = &all[0..size];
    let mut offset = 0usize;
    let mut count = 0usize;
    let r = screens_assembly::assembly::screens_map_row(map, n, node, &mut offset, &mut count);
    same_place(r, offset, count, w, 3)
}

// By the kind's number.
#[tactic(auto, unfolding(crate::specs::Maps::rows_agree))]
pub fn agree(kind: u64, f: &[f64; 2048], w: &[u64; 2048]) -> bool
    ensures { result ≡ Spec.rows_agree kind f.now w.now }
{
    match kind {
        31 => row_matrix(f, w),
        32 => row_map(f, w),
        _ => false,
    }
}
