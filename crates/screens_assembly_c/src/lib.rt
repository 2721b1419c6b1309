// What the static library hands to C and Rust of `screens_assembly`: matrix, move, return to a shape, energies, flux, rows. A crate is a
// library or a static library, and the replay of stored answers calls that one.
#![tactic(auto)]

pub mod assembly;
