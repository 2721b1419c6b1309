// Functions that the static library hands to C and Rust, as in `screens_panels`: matrix, move, return to
// a shape, energies, flux, rows. `screens_assembly_c` exports them.
#![tactic(auto)]

pub mod assembly;
