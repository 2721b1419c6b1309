// boundary_element/mod.rs: current densities, quadrature points, and whether two panels are one.
#![tactic(auto)]

pub mod current_density;
pub mod identity;

pub use mesh_points::quadrature_points;
