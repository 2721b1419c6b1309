// The lines of document 01's bench sheet, worked out by the library.
ghost use Rattle.std.specs.Prelude.{◌≡◌, [], get_or, pos};
ghost use Rattle.binary64.specs.Binary64.{plus_zero};
ghost use Rattle.mesh.specs.Mesh.{mesh_of, mesh_refusal, max_nodes, max_panels};
ghost use Rattle.mesh.specs.Columns.{viewed};
ghost use Rattle.panel_distance.specs.Bisection.{longest_edge, longest_edge_bisection};
ghost use Rattle.coupling.specs.Coupling.{is_far};
ghost use Rattle.linkage.specs.Energy.{inductive_energy};
ghost use Rattle.linkage.specs.Flux.{flux_linkage, interaction_energy, map_refusal};
ghost use Rattle.display.specs.Display as Display;
ghost use Rattle.worked_examples.specs.BenchSheet.{thin, raised, unit, sheet_map, sheet_coefficients, sheet_values, identity, nodal_values, inductance};

use mesh::columns::{NodeColumns, PanelColumns, TriangleMeshView};

// Six lent slices as a mesh.
fn lent<'a>(
    x: &'a [f64],
    y: &'a [f64],
    z: &'a [f64],
    t0: &'a [usize],
    t1: &'a [usize],
    t2: &'a [usize],
) -> TriangleMeshView<'a>
    ensures { viewed result ≡ mesh_of x.now y.now z.now t0.now t1.now t2.now }
{
    TriangleMeshView {
        nodes: NodeColumns { x, y, z },
        panels: PanelColumns { t0, t1, t2 },
    }
}

// The mesh test's number for corners (0,0,0), (1,0,0), (0,height,0).
pub fn thin_refusal(height: f64) -> u32
    ensures { result ≡ mesh_refusal max_nodes max_panels (thin height) }
{
    let x = [0.0, 1.0, 0.0];
    let y = [0.0, 0.0, height];
    let z = [0.0, 0.0, 0.0];
    let mesh = lent(&x, &y, &z, &[0], &[1], &[2]);
    refusal::number_of(&mesh::validate_triangle_mesh_geometry(&mesh))
}

// Whether (0,0,0), (3,0,0), (0,4,0) is far from itself raised by z.
pub fn far_when_raised(z: f64) -> bool
    ensures { result ≡ is_far (raised plus_zero) (raised z) }
{
    let low = [[0.0, 0.0, 0.0], [3.0, 0.0, 0.0], [0.0, 4.0, 0.0]];
    let high = [[0.0, 0.0, z], [3.0, 0.0, z], [0.0, 4.0, z]];
    coupling::coupling::is_far(low, high)
}

pub fn split_edge() -> usize
    ensures { result ≡ longest_edge unit }
{
    panel_distance::bisection::longest_edge([[0.0, 0.0, 0.0], [1.0, 0.0, 0.0], [0.0, 1.0, 0.0]])
}

// The corner that is new in the first half.
pub fn split_point() -> [f64; 3]
    ensures { result ≡ get_or (get_or (longest_edge_bisection unit) 0 []) 1 [] }
{
    let halves = panel_distance::bisection::longest_edge_bisection([
        [0.0, 0.0, 0.0],
        [1.0, 0.0, 0.0],
        [0.0, 1.0, 0.0],
    ]);
    halves[0][1]
}

pub fn flux() -> [f64; 2]
    ensures { result ≡ flux_linkage sheet_map sheet_coefficients 2 }
{
    let map = [1.0, 2.0, 3.0, 4.0];
    let coefficients = [5.0, 6.0];
    let mut out = [0.0, 0.0];
    let _ = linkage::flux::triangle_mesh_flux_linkage_from_source_coefficients(
        &map,
        &coefficients,
        &mut out,
    );
    out
}

pub fn interaction_energy() -> f64
    ensures { result ≡ interaction_energy sheet_map sheet_values sheet_coefficients }
{
    let map = [1.0, 2.0, 3.0, 4.0];
    let values = [1.0, 1.0];
    let coefficients = [5.0, 6.0];
    linkage::flux::triangle_mesh_interaction_energy_from_source_coefficients(
        &map,
        &values,
        &coefficients,
    ).unwrap_or(0.0)
}

// The flux call's number for an empty map, no sources and one output.
pub fn no_sources() -> u32
    ensures { result ≡ map_refusal 0 0 1 }
{
    let map = [0.0];
    let coefficients = [0.0];
    let mut out = [0.0];
    refusal::number_of(
        &linkage::flux::triangle_mesh_flux_linkage_from_source_coefficients(
            &map[..0],
            &coefficients[..0],
            &mut out,
        ),
    )
}

pub fn energy() -> f64
    ensures { result ≡ inductive_energy identity nodal_values }
{
    let matrix = [1.0, 0.0, 0.0, 1.0];
    let values = [3.0, 4.0];
    linkage::energy::triangle_mesh_inductive_energy(&matrix, &values).unwrap_or(0.0)
}

// 1/1024 H in whole nanohenries.
pub fn displayed() -> u64
    ensures { pos result ≡ Display.shown inductance }
{
    display::display(0.0009765625).unwrap_or(0) as u64
}
