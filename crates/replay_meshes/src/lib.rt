// The kinds of stored cases with a mesh and without a matrix, each worked out by the library and compared in bits.
#![tactic(auto)]

pub mod columns;
mod densities;
mod quadratures;
