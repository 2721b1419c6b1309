// Meshes of six columns: the coordinates x, y, z of the nodes, and for each panel the nodes t0, t1, t2 of its corners.
ghost use Rattle.mesh.specs.Mesh.{passed_mesh};
ghost use Rattle.mesh.specs.Conditions.{Tested};
ghost use Rattle.boundary_element.specs.CurrentDensity.{Densities};
ghost use Rattle.boundary_element.specs.QuadraturePoints.{PointsBy};

use boundary_element::{current_density, quadrature_points};
use mesh::columns::{NodeColumns, PanelColumns, TriangleMeshView};
use refusal::{hand_out, number_of};

// The mesh test's number; the count of poor panels, 0 on a refusal, goes to the lent number.
#[unsafe(no_mangle)]
pub extern "C" fn screens_mesh_test(
    x: &[f64],
    y: &[f64],
    z: &[f64],
    t0: &[usize],
    t1: &[usize],
    t2: &[usize],
    poor: &mut usize,
) -> u32
    ensures { Tested (passed_mesh x y z t0 t1 t2) result poor.new }
{
    let mesh = TriangleMeshView {
        nodes: NodeColumns { x, y, z },
        panels: PanelColumns { t0, t1, t2 },
    };
    hand_out(mesh::validate_triangle_mesh_geometry(&mesh), 0, poor)
}

// The current density on each panel, for the nodal values s.
#[unsafe(no_mangle)]
pub extern "C" fn screens_mesh_current_density(
    x: &[f64],
    y: &[f64],
    z: &[f64],
    t0: &[usize],
    t1: &[usize],
    t2: &[usize],
    s: &[f64],
    jx: &mut [f64],
    jy: &mut [f64],
    jz: &mut [f64],
) -> u32
    ensures { Densities (passed_mesh x y z t0 t1 t2) s.now jx.old jy.old jz.old result jx.new jy.new jz.new }
{
    let mesh = TriangleMeshView {
        nodes: NodeColumns { x, y, z },
        panels: PanelColumns { t0, t1, t2 },
    };
    number_of(&current_density::triangle_mesh_current_density(&mesh, s, jx, jy, jz))
}

// The quadrature points of each panel and their area weights, under the rule of a number from 1 to 5.
#[unsafe(no_mangle)]
pub extern "C" fn screens_mesh_quadrature_points(
    rule: u32,
    x: &[f64],
    y: &[f64],
    z: &[f64],
    t0: &[usize],
    t1: &[usize],
    t2: &[usize],
    px: &mut [f64],
    py: &mut [f64],
    pz: &mut [f64],
    pw: &mut [f64],
) -> u32
    ensures { PointsBy rule (passed_mesh x y z t0 t1 t2) px.old py.old pz.old pw.old result px.new py.new pz.new pw.new }
{
    let mesh = TriangleMeshView {
        nodes: NodeColumns { x, y, z },
        panels: PanelColumns { t0, t1, t2 },
    };
    number_of(&quadrature_points::triangle_mesh_quadrature_points(rule, &mesh, px, py, pz, pw))
}
