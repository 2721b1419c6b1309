// CR 5's store for eight shapes of one mesh: marks, names and coordinates, place after place. A name has eight bytes.
ghost use Rattle.mesh.specs.Mesh.{passed_mesh};
ghost use Rattle.shape_store.specs.Store.{left_store, left_marks, Saved, Dropped, store_of};

use mesh::columns::{NodeColumns, PanelColumns, TriangleMeshView};
use refusal::number_of;

// Saves the mesh's shape under a name: over the shape of that name, or at the first free place.
#[unsafe(no_mangle)]
pub extern "C" fn screens_save_shape(
    x: &[f64],
    y: &[f64],
    z: &[f64],
    t0: &[usize],
    t1: &[usize],
    t2: &[usize],
    marks: &mut [u8],
    names: &mut [u8],
    sx: &mut [f64],
    sy: &mut [f64],
    sz: &mut [f64],
    name: &[u8; 8],
) -> u32
    ensures { Saved (passed_mesh x y z t0 t1 t2) (store_of marks.old names.old sx.old sy.old sz.old) name.now result (left_store marks names sx sy sz) }
{
    let mesh = TriangleMeshView {
        nodes: NodeColumns { x, y, z },
        panels: PanelColumns { t0, t1, t2 },
    };
    number_of(&shape_store::save_shape(&mesh, marks, names, sx, sy, sz, name))
}

// Drops the shape of a name: its mark becomes 0.
#[unsafe(no_mangle)]
pub extern "C" fn screens_drop_shape(
    x: &[f64],
    y: &[f64],
    z: &[f64],
    t0: &[usize],
    t1: &[usize],
    t2: &[usize],
    marks: &mut [u8],
    names: &[u8],
    sx: &[f64],
    sy: &[f64],
    sz: &[f64],
    name: &[u8; 8],
) -> u32
    ensures { Dropped (passed_mesh x y z t0 t1 t2) (store_of marks.old names.now sx.now sy.now sz.now) name.now result (left_marks marks names sx sy sz) }
{
    let mesh = TriangleMeshView {
        nodes: NodeColumns { x, y, z },
        panels: PanelColumns { t0, t1, t2 },
    };
    let shapes = NodeColumns {
        x: sx,
        y: sy,
        z: sz,
    };
    number_of(&shape_store::drop_shape(&mesh, marks, names, &shapes, name))
}
