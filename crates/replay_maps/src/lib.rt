// The kinds of stored cases with a matrix or a map, and the display value, each worked out by the library and compared in bits.
#![tactic(auto)]

mod fluxes;
pub mod maps;
pub mod rows;
pub mod shown;
