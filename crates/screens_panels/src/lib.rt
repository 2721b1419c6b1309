// Functions that the static library hands to C and Rust: single numbers, vectors, a panel, two panels. A vector is a lent array of
// three numbers, a triangle of nine, and a result that is no single number goes to a lent array of its count. Every name begins with
// `screens_`. Each is one call of a crate below and has that function's contract.
#![tactic(auto)]

pub mod arithmetic;
pub mod pairs;
pub mod panels;
pub mod vectors;
