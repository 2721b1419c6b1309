// inductance.rs: the calls on a given matrix or map: contraction with nodal values, flux linkage and
// interaction energy from source coefficients, and the row of a node.
#![tactic(auto)]

pub mod energy;
pub mod flux;
pub mod row;
