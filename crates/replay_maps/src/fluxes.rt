// The flux linkage: a map, coefficients and the length of the output.
ghost use Rattle.std.specs.Prelude.{◌≡◌, ◌+◌, ◌≤◌, length};
ghost use Rattle.replay_maps.specs.Maps as Spec;

use replay_words::buffers::held;
use replay_words::words::{cut_at, same_refusal};

// The call, its number and its buffer compared.
fn flux_into(map: &[f64], cs: &[f64], out: &mut [f64], w: &[u64; 2048], k: usize) -> bool
    requires { k + 1 + length out.old ≤ 2048 }
    ensures { result ≡ Spec.flux_into map.now cs.now out.old w.now k }
{
    let outcome = linkage::flux::triangle_mesh_flux_linkage_from_source_coefficients(map, cs, out);
    let a = same_refusal(&outcome, w, k);
    let b = held(&outcome, out, w, k + 1);
    a & b
}

pub fn flux(f: &[f64; 2048], w: &[u64; 2048]) -> bool
    ensures { result ≡ Spec.flux f.now w.now }
{
    let n = cut_at(w, 0, 64);
    let m = cut_at(w, n + 1, 64);
    let p = cut_at(w, n + 2 + m, 64);
    let all = &f[..];
    let map = &all[1..n + 1];
    let cs = &all[n + 2..n + 2 + m];
    let mut out = [77.0f64; 64];
    flux_into(map, cs, &mut out[0..p], w, n + m + 3)
}
