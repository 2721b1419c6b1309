// The current density of nodal stream-function values: on one panel, and on every panel of a mesh.
ghost use Rattle.std.specs.Prelude.{◌≡◌, ◌<◌, length, get_or};
ghost use Rattle.mesh.specs.Mesh.{max_nodes, max_panels, nnode, ntri};
ghost use Rattle.mesh.specs.Columns.{viewed};
ghost use Rattle.mesh.specs.Conditions.{Accepted};
ghost use Rattle.refusal.specs.Outcome.{number_of};
ghost use Rattle.boundary_element.specs.CurrentDensity as Spec;
ghost use Rattle.boundary_element.specs.CurrentDensity.{Stored, DensityReady, Densities};

use mesh::columns::TriangleMeshView;
use refusal::Refusal;

// The density of a unit value at corner 0.
#[tactic(auto, unfolding(crate::specs::CurrentDensity::basis_current_density))]
fn basis_current_density(t: [[f64; 3]; 3]) -> [f64; 3]
    ensures { result ≡ Spec.basis_current_density t }
{
    let v01 = math::sub3(t[1], t[0]);
    let v02 = math::sub3(t[2], t[0]);
    let area = tri::mapping::area(t);
    let two_area = area + area;
    [
        (v01[0] - v02[0]) / two_area,
        (v01[1] - v02[1]) / two_area,
        (v01[2] - v02[2]) / two_area,
    ]
}

// The triangle with corner 1 first, then 2 and 0.
fn turned(t: [[f64; 3]; 3]) -> [[f64; 3]; 3]
    ensures { result ≡ Spec.turned t }
{
    [t[1], t[2], t[0]]
}

// The densities of a unit value at each corner.
#[tactic(auto, unfolding(crate::specs::CurrentDensity::triangle_basis_current_densities))]
pub fn triangle_basis_current_densities(t: [[f64; 3]; 3]) -> [[f64; 3]; 3]
    ensures { result ≡ Spec.triangle_basis_current_densities t }
{
    let t1 = turned(t);
    let t2 = turned(t1);
    let b0 = basis_current_density(t);
    let b1 = basis_current_density(t1);
    let b2 = basis_current_density(t2);
    [b0, b1, b2]
}

// The density of the values s at the corners.
#[tactic(auto, unfolding(crate::specs::CurrentDensity::triangle_current_density, crate::specs::CurrentDensity::combined))]
pub fn triangle_current_density(t: [[f64; 3]; 3], s: [f64; 3]) -> [f64; 3]
    ensures { result ≡ Spec.triangle_current_density t s }
{
    let b = triangle_basis_current_densities(t);
    [
        s[0] * b[0][0] + s[1] * b[1][0] + s[2] * b[2][0],
        s[0] * b[0][1] + s[1] * b[1][1] + s[2] * b[2][1],
        s[0] * b[0][2] + s[1] * b[1][2] + s[2] * b[2][2],
    ]
}

// The nodal values at three nodes.
#[tactic(auto, unfolding(crate::specs::CurrentDensity::triangle_scalars))]
fn triangle_scalars(indices: [usize; 3], s: &[f64]) -> [f64; 3]
    requires { (get_or indices 0 0 < length s.now) × (get_or indices 1 0 < length s.now) × (get_or indices 2 0 < length s.now) }
    ensures { result ≡ Spec.triangle_scalars indices s.now }
{
    [s[indices[0]], s[indices[1]], s[indices[2]]]
}

// The density of panel i.
fn panel_density(mesh: &TriangleMeshView, s: &[f64], i: usize) -> [f64; 3]
    requires accepted { Accepted max_nodes max_panels (viewed mesh.now) }
    requires s_len { (length s.now ≡ nnode (viewed mesh.now)) × (i < ntri (viewed mesh.now)) }
    ensures { result ≡ Spec.panel_density (viewed mesh.now) s.now i }
{
    let v = triangle_scalars(mesh.panels.triangle_indices(i), s);
    triangle_current_density(mesh.triangle_nodes(i), v)
}

// A vector's components, each into its column at i.
pub fn store3(a: &mut [f64], b: &mut [f64], c: &mut [f64], i: usize, v: [f64; 3])
    requires { (i < length a.old) × (i < length b.old) × (i < length c.old) }
    ensures { Stored a.old b.old c.old i v a.new b.new c.new }
{
    a[i] = v[0];
    b[i] = v[1];
    c[i] = v[2];
}

// The densities of all panels of an accepted mesh. The outputs are three columns, as the C function lends them.
fn fill_densities(
    mesh: &TriangleMeshView,
    s: &[f64],
    jx: &mut [f64],
    jy: &mut [f64],
    jz: &mut [f64],
)
    requires { DensityReady (viewed mesh.now) s.now jx.old jy.old jz.old }
    ensures { Spec.Currents (viewed mesh.now) s.now jx.new jy.new jz.new }
{
    for i in 0..mesh.ntri() {
        store3(jx, jy, jz, i, panel_density(mesh, s, i));
    }
}

// The call for so many nodal values and outputs of these lengths.
#[tactic(auto, using(mesh::proofs::Refusals::refused_by, mesh::proofs::Refusals::done_passed), unfolding(crate::specs::CurrentDensity::density_refusal, refusal::specs::Checks::first))]
fn check_density(
    mesh: &TriangleMeshView,
    values: usize,
    lx: usize,
    ly: usize,
    lz: usize,
) -> Result<(), Refusal>
    ensures { number_of result ≡ Spec.density_refusal (viewed mesh.now) values lx ly lz }
{
    mesh::check_mesh(mesh)?;
    if values != mesh.nnode() {
        return Err(Refusal::NodalValues);
    }
    if lists::columns_differ(mesh.ntri(), lx, ly, lz) {
        return Err(Refusal::Output);
    }
    Ok(())
}

// The current density on each panel of a mesh, for the nodal values s.
pub fn triangle_mesh_current_density(
    mesh: &TriangleMeshView,
    s: &[f64],
    jx: &mut [f64],
    jy: &mut [f64],
    jz: &mut [f64],
) -> Result<(), Refusal>
    ensures { Densities (viewed mesh.now) s.now jx.old jy.old jz.old (number_of result) jx.new jy.new jz.new }
{
    check_density(mesh, s.len(), jx.len(), jy.len(), jz.len())?;
    fill_densities(mesh, s, jx, jy, jz);
    Ok(())
}
