// inductance.rs: coupling of two triangles, the three by three block and its entries.
#![tactic(auto)]

pub mod block;
pub mod calls;
pub mod coupling;
