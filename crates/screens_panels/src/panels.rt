// One panel, by the nine coordinates of its corners.
ghost use Rattle.std.specs.Prelude.{◌≡◌};
ghost use Rattle.tri.specs.Mapping as Mapping;
ghost use Rattle.tri.specs.Tri3 as Tri3;
ghost use Rattle.potential.specs.Potential as Potential;
ghost use Rattle.mesh.specs.Mesh as Mesh;
ghost use Rattle.boundary_element.specs.CurrentDensity as Density;
ghost use Rattle.boundary_element.specs.Identity as Identity;
ghost use Rattle.panel_points.specs.Points.{coordinates};
ghost use Rattle.lent_numbers.specs.Numbers.{record_numbers};
ghost use Rattle.screens_panels.specs.Screens.{vector, triangle};

use boundary_element::current_density;
use lent_numbers::record_numbers;
use panel_points::{coordinates, triangle};
use potential::UniformTriangle;

// The triangle's area.
#[unsafe(no_mangle)]
pub extern "C" fn screens_area(t: &[f64; 9]) -> f64
    ensures { result ≡ Mapping.area (triangle t) }
{
    tri::mapping::area(triangle(*t))
}

// Its unit normal.
#[unsafe(no_mangle)]
pub extern "C" fn screens_normal(t: &[f64; 9], out: &mut [f64; 3])
    ensures { out.new ≡ Mapping.normal (triangle t) }
{
    *out = tri::mapping::normal(triangle(*t));
}

// Its point at (u, v) of the reference triangle.
#[unsafe(no_mangle)]
pub extern "C" fn screens_map_point(t: &[f64; 9], u: f64, v: f64, out: &mut [f64; 3])
    ensures { out.new ≡ Mapping.map_point (triangle t) u v }
{
    *out = tri::mapping::map_point(triangle(*t), u, v);
}

// Its point closest to another.
#[unsafe(no_mangle)]
pub extern "C" fn screens_closest_point(point: &[f64; 3], t: &[f64; 9], out: &mut [f64; 3])
    ensures { out.new ≡ Tri3.closest_point (vector point) (triangle t) }
{
    *out = tri::tri3::closest_point(*point, triangle(*t));
}

// The triangle's potential at a point.
#[unsafe(no_mangle)]
pub extern "C" fn screens_potential(t: &[f64; 9], point: &[f64; 3]) -> f64
    ensures { result ≡ Potential.scalar_potential (Potential.uniform_triangle (triangle t)) (vector point) }
{
    UniformTriangle::new(triangle(*t)).scalar_potential(*point)
}

// The gradient of that potential.
#[unsafe(no_mangle)]
pub extern "C" fn screens_gradient(t: &[f64; 9], point: &[f64; 3], out: &mut [f64; 3])
    ensures { out.new ≡ Potential.scalar_potential_gradient (Potential.uniform_triangle (triangle t)) (vector point) }
{
    *out = UniformTriangle::new(triangle(*t)).scalar_potential_gradient(*point);
}

// Whether a point lies on the triangle, within the tolerance of the original.
#[unsafe(no_mangle)]
pub extern "C" fn screens_contact(t: &[f64; 9], point: &[f64; 3]) -> bool
    ensures { result ≡ Potential.contains_on_surface (Potential.uniform_triangle (triangle t)) (vector point) }
{
    UniformTriangle::new(triangle(*t)).contains_on_surface(*point)
}

// 1 for equal edges, towards 0 for a sliver.
#[unsafe(no_mangle)]
pub extern "C" fn screens_quality(t: &[f64; 9]) -> f64
    ensures { result ≡ Mesh.quality (triangle t) }
{
    mesh::triangle_quality(triangle(*t))
}

// The panel's record: corners, normal, edge tangents, outward edges, edge lengths, longest edge.
#[unsafe(no_mangle)]
pub extern "C" fn screens_record(t: &[f64; 9], out: &mut [f64; 34])
    ensures { out.new ≡ record_numbers (Potential.uniform_triangle (triangle t)) }
{
    *out = record_numbers(UniformTriangle::new(triangle(*t)));
}

// The current densities of a unit value at each corner, corner after corner.
#[unsafe(no_mangle)]
pub extern "C" fn screens_basis_current_densities(t: &[f64; 9], out: &mut [f64; 9])
    ensures { out.new ≡ coordinates (Density.triangle_basis_current_densities (triangle t)) }
{
    *out = coordinates(current_density::triangle_basis_current_densities(triangle(*t)));
}

// The current density of the values s at the corners.
#[unsafe(no_mangle)]
pub extern "C" fn screens_current_density(t: &[f64; 9], s: &[f64; 3], out: &mut [f64; 3])
    ensures { out.new ≡ Density.triangle_current_density (triangle t) (vector s) }
{
    *out = current_density::triangle_current_density(triangle(*t), *s);
}

// Whether each corner of the source is within the tolerance of some corner of the target.
#[unsafe(no_mangle)]
pub extern "C" fn screens_triangles_identical(source: &[f64; 9], target: &[f64; 9]) -> bool
    ensures { result ≡ Identity.triangles_identical (triangle source) (triangle target) }
{
    boundary_element::identity::triangles_identical(triangle(*source), triangle(*target))
}
