// The panel file's reader and writer, and the display value.
ghost use Rattle.mesh.specs.Mesh.{max_nodes, max_panels, passed_mesh, written_mesh, mesh_of};
ghost use Rattle.panel_file.specs.PanelFile.{Read};
ghost use Rattle.panel_file_write.specs.Write.{Written};
ghost use Rattle.display.specs.Display.{Displayed};

use mesh::columns::{NodeColumns, PanelColumns, TriangleMeshView};
use refusal::{hand_out, number_of};

// Whole nanohenries; they go to the lent number, 0 on a refusal.
#[unsafe(no_mangle)]
pub extern "C" fn screens_display(x: f64, value: &mut i64) -> u32
    ensures { Displayed x result value.new }
{
    hand_out(display::display(x), 0, value)
}

// A panel file's columns, which must be of its counts; as they were on a refusal.
#[unsafe(no_mangle)]
pub extern "C" fn screens_read_panel_file(
    file: &[u8],
    x: &mut [f64],
    y: &mut [f64],
    z: &mut [f64],
    t0: &mut [usize],
    t1: &mut [usize],
    t2: &mut [usize],
) -> u32
    ensures { Read max_nodes max_panels file.now (mesh_of x.old y.old z.old t0.old t1.old t2.old) result (written_mesh x y z t0 t1 t2) }
{
    number_of(&panel_file::read_panel_file(file, x, y, z, t0, t1, t2))
}

// The panel file of a mesh, into an output of exactly its length; as it was on a refusal.
#[unsafe(no_mangle)]
pub extern "C" fn screens_write_panel_file(
    x: &[f64],
    y: &[f64],
    z: &[f64],
    t0: &[usize],
    t1: &[usize],
    t2: &[usize],
    file: &mut [u8],
) -> u32
    ensures { Written max_nodes max_panels (passed_mesh x y z t0 t1 t2) file.old result file.new }
{
    let mesh = TriangleMeshView {
        nodes: NodeColumns { x, y, z },
        panels: PanelColumns { t0, t1, t2 },
    };
    number_of(&panel_file_write::write_panel_file(&mesh, file))
}
