// Energies and the flux linkage: the matrix or map, then the vectors, each as its length and its numbers.
ghost use Rattle.std.specs.Prelude.{◌≡◌};
ghost use Rattle.replay_maps.specs.Maps as Spec;

use crate::fluxes::flux;
use replay_words::words::{cut_at, same_value};

pub fn energy1(f: &[f64; 2048], w: &[u64; 2048]) -> bool
    ensures { result ≡ Spec.energy1 f.now w.now }
{
    let n = cut_at(w, 0, 64);
    let m = cut_at(w, n + 1, 64);
    let all = &f[..];
    let matrix = &all[1..n + 1];
    let s = &all[n + 2..n + 2 + m];
    let outcome = linkage::energy::triangle_mesh_inductive_energy(matrix, s);
    same_value(outcome, w, n + m + 2)
}

pub fn energy2(f: &[f64; 2048], w: &[u64; 2048]) -> bool
    ensures { result ≡ Spec.energy2 f.now w.now }
{
    let n = cut_at(w, 0, 64);
    let m = cut_at(w, n + 1, 64);
    let p = cut_at(w, n + 2 + m, 64);
    let all = &f[..];
    let matrix = &all[1..n + 1];
    let s = &all[n + 2..n + 2 + m];
    let t = &all[n + m + 3..n + m + 3 + p];
    let outcome = linkage::energy::triangle_mesh_inductance_from_potential_vectors(matrix, s, t);
    same_value(outcome, w, n + m + 3 + p)
}

pub fn interaction(f: &[f64; 2048], w: &[u64; 2048]) -> bool
    ensures { result ≡ Spec.interaction f.now w.now }
{
    let n = cut_at(w, 0, 64);
    let m = cut_at(w, n + 1, 64);
    let p = cut_at(w, n + 2 + m, 64);
    let all = &f[..];
    let map = &all[1..n + 1];
    let values = &all[n + 2..n + 2 + m];
    let coefficients = &all[n + m + 3..n + m + 3 + p];
    let outcome = linkage::flux::triangle_mesh_interaction_energy_from_source_coefficients(
        map,
        values,
        coefficients,
    );
    same_value(outcome, w, n + m + 3 + p)
}

// By the kind's number.
#[tactic(auto, unfolding(crate::specs::Maps::maps_agree))]
pub fn agree(kind: u64, f: &[f64; 2048], w: &[u64; 2048]) -> bool
    ensures { result ≡ Spec.maps_agree kind f.now w.now }
{
    match kind {
        26 => energy2(f, w),
        27 => energy1(f, w),
        28 => flux(f, w),
        29 => interaction(f, w),
        _ => false,
    }
}
