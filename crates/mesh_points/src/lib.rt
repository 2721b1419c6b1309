// The quadrature points of a mesh: boundary_element passes them on.
#![tactic(auto)]

pub mod quadrature_points;
