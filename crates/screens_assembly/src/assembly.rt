// The inductance matrix of a mesh, its energies, and the work with a given map.
ghost use Rattle.std.proofs.Math.ListN as List;
ghost use Rattle.mesh.specs.Mesh.{passed_mesh, left_mesh, mesh_of};
ghost use Rattle.inductance.specs.Assembly.{Assembled};
ghost use Rattle.linkage.specs.Energy as Energy;
ghost use Rattle.linkage.specs.Flux as Flux;
ghost use Rattle.linkage.specs.Flux.{Linked};
ghost use Rattle.linkage.specs.Row as Row;
ghost use Rattle.node_move.specs.Move.{MovedBy};
ghost use Rattle.shape_store.specs.Store.{passed_store};
ghost use Rattle.shape_return.specs.Return.{ReturnedBy, lent_screen};
ghost use Rattle.screens_assembly.specs.Rows.{RowAt};

use mesh::columns::{NodeColumns, PanelColumns, TriangleMeshView};
use refusal::{hand_out, number_of};
use shape_store::ShapeStore;

// The matrix, row by row, under the rule of a number from 1 to 5.
pub fn screens_mesh_inductance_matrix(
    rule: u32,
    x: &[f64],
    y: &[f64],
    z: &[f64],
    t0: &[usize],
    t1: &[usize],
    t2: &[usize],
    out: &mut [f64],
) -> u32
    ensures { Assembled rule (passed_mesh x y z t0 t1 t2) out.old result out.new }
{
    let mesh = TriangleMeshView {
        nodes: NodeColumns { x, y, z },
        panels: PanelColumns { t0, t1, t2 },
    };
    number_of(&inductance::triangle_mesh_inductance_matrix(rule, &mesh, out))
}

// The matrix between source values s and target values t; it goes to the lent number, 0 on a refusal, as every value below.
pub fn screens_mesh_inductance_from_potentials(
    matrix: &[f64],
    s: &[f64],
    t: &[f64],
    value: &mut f64,
) -> u32
    ensures { Energy.VectorsAnswered matrix.now s.now t.now result value.new }
{
    let answer = linkage::energy::triangle_mesh_inductance_from_potential_vectors(matrix, s, t);
    hand_out(answer, 0.0, value)
}

// Half of the matrix between s and itself.
pub fn screens_mesh_inductive_energy(matrix: &[f64], s: &[f64], value: &mut f64) -> u32
    ensures { Energy.EnergyAnswered matrix.now s.now result value.new }
{
    let answer = linkage::energy::triangle_mesh_inductive_energy(matrix, s);
    hand_out(answer, 0.0, value)
}

// The flux linkage of each node.
pub fn screens_mesh_flux_linkage(map: &[f64], coefficients: &[f64], out: &mut [f64]) -> u32
    ensures { Linked map.now coefficients.now out.old result out.new }
{
    number_of(
        &linkage::flux::triangle_mesh_flux_linkage_from_source_coefficients(map, coefficients, out),
    )
}

// The interaction energy of nodal values and source coefficients.
pub fn screens_mesh_interaction_energy(
    map: &[f64],
    values: &[f64],
    coefficients: &[f64],
    value: &mut f64,
) -> u32
    ensures { Flux.InteractionAnswered map.now values.now coefficients.now result value.new }
{
    let answer = linkage::flux::triangle_mesh_interaction_energy_from_source_coefficients(
        map,
        values,
        coefficients,
    );
    hand_out(answer, 0.0, value)
}

// The row of a node in a matrix for n nodes, as where it begins and how long it is: 0 and 0 on a refusal.
pub fn screens_matrix_row(
    matrix: &[f64],
    n: usize,
    node: usize,
    offset: &mut usize,
    count: &mut usize,
) -> u32
    ensures { RowAt (Row.matrix_row_refusal (List.length matrix.now) n node) n node result offset.new count.new }
{
    match linkage::row::triangle_mesh_matrix_row_or_refusal(matrix, n, node) {
        Ok(_) => {
            *offset = node * n;
            *count = n;
            0
        }
        Err(refusal) => {
            *offset = 0;
            *count = 0;
            refusal.number()
        }
    }
}

// The row of a node in a map for so many sources, in the same way.
pub fn screens_map_row(
    map: &[f64],
    sources: usize,
    node: usize,
    offset: &mut usize,
    count: &mut usize,
) -> u32
    ensures { RowAt (Row.map_row_refusal (List.length map.now) sources node) sources node result offset.new count.new }
{
    match linkage::row::triangle_mesh_map_row_or_refusal(map, sources, node) {
        Ok(_) => {
            *offset = node * sources;
            *count = sources;
            0
        }
        Err(refusal) => {
            *offset = 0;
            *count = 0;
            refusal.number()
        }
    }
}

// A node moved to the place (px, py, pz), under the rule of a number: the coordinates are written, the cells of its ring's rows and
// columns renewed, and their count goes to the lent number.
pub fn screens_move_node(
    rule: u32,
    x: &mut [f64],
    y: &mut [f64],
    z: &mut [f64],
    t0: &[usize],
    t1: &[usize],
    t2: &[usize],
    matrix: &mut [f64],
    node: usize,
    px: f64,
    py: f64,
    pz: f64,
    count: &mut usize,
) -> u32
    ensures { MovedBy rule (mesh_of x.old y.old z.old t0.now t1.now t2.now) matrix.old node px py pz result count.new (left_mesh x y z t0 t1 t2) matrix.new }
{
    let panels = PanelColumns { t0, t1, t2 };
    let moved = node_move::move_node(rule, x, y, z, &panels, matrix, node, [px, py, pz]);
    hand_out(moved, 0, count)
}

// The return to the shape of a name, with the count of the renewed cells, 0 on a refusal.
pub fn screens_return_shape(
    rule: u32,
    x: &mut [f64],
    y: &mut [f64],
    z: &mut [f64],
    t0: &[usize],
    t1: &[usize],
    t2: &[usize],
    out: &mut [f64],
    marks: &[u8],
    names: &[u8],
    sx: &[f64],
    sy: &[f64],
    sz: &[f64],
    name: &[u8; 8],
    count: &mut usize,
) -> u32
    ensures { ReturnedBy rule (lent_screen x y z t0 t1 t2 out) (passed_store marks names sx sy sz) name.now result count.new }
{
    let panels = PanelColumns { t0, t1, t2 };
    let store = ShapeStore {
        marks,
        names,
        shapes: NodeColumns {
            x: sx,
            y: sy,
            z: sz,
        },
    };
    let returned = shape_return::return_shape(rule, x, y, z, &panels, out, &store, name);
    hand_out(returned, 0, count)
}
