// Functions that the static library hands to C and Rust, as in `screens_panels`: mesh test, current density, quadrature points; panel
// file, display value; the store of named shapes.
#![tactic(auto)]

pub mod files;
pub mod meshes;
pub mod shapes;
