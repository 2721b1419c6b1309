// inductance.rs: how far apart two triangles are, and a triangle halved at its longest edge.
#![tactic(auto)]

pub mod bisection;
pub mod distance;
