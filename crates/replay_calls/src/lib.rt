// The kinds of stored cases of fixed length, each worked out by the library and compared in bits.
#![tactic(auto)]

pub mod calls;
pub mod numbers;
pub mod pairs;
pub mod panels;
pub mod vectors;
