// src/mesh/elements/tri: the three-node triangle. A triangle is its three corners by value.
#![tactic(auto)]

pub mod mapping;
pub mod quadrature;
pub mod tri3;
