// The writer of document 01's panel file. The mesh and the output's length are tested before anything
// is written; then header, nodes and panels are put one behind the other.
#![tactic(auto)]

ghost use Rattle.std.specs.Prelude.{◌≡◌, [], ◌+◌, ◌*◌, ◌^◌, ◌≤◌, ◌<◌, length};
ghost use Rattle.refusal.specs.Outcome.{number_of};
ghost use Rattle.lists.specs.Putting.{Put};
ghost use Rattle.mesh.specs.Columns.{viewed, viewed_panels};
ghost use Rattle.mesh.specs.Conditions.{NodeColumnsAlike, PanelColumnsAlike};
ghost use Rattle.mesh.specs.Mesh.{max_nodes, max_panels, mesh_of};
ghost use Rattle.panel_file.specs.LittleEndian.{to_little_endian, three_fields};
ghost use Rattle.panel_file.specs.PanelFile.{encode_header, node_rows, panel_rows, Held};
ghost use Rattle.panel_file_write.specs.Write.{write_refusal, Written};

use mesh::columns::{NodeColumns, PanelColumns, TriangleMeshView};
use refusal::Refusal;

// A number's lowest `width` bytes, the lowest first; the answer is the index behind them.
fn put_number(out: &mut [u8], from: usize, width: usize, n: u64) -> usize
    requires { (width ≤ 8) × (from + width ≤ length out.old) }
    ensures { Put out.old from (to_little_endian width n) out.new result }
{
    lists::put(out, from, &n.to_le_bytes()[..width])
}

// Three numbers of `width` bytes.
fn put_three(out: &mut [u8], from: usize, width: usize, a: u64, b: u64, c: u64) -> usize
    requires { (width ≤ 8) × (from + (width + (width + width)) ≤ length out.old) }
    ensures { Put out.old from (three_fields width a b c) out.new result }
{
    let second = put_number(out, from, width, a);
    let third = put_number(out, second, width, b);
    put_number(out, third, width, c)
}

// Mark, version 1 and the counts.
fn put_header(out: &mut [u8], n: usize, p: usize) -> usize
    requires { 9 ≤ length out.old }
    ensures { Put out.old 0 (encode_header n p) out.new result }
{
    let behind = lists::put(out, 0, b"PNL");
    put_three(out, behind, 2, 1, n as u64, p as u64)
}

// The coordinates of every node. (Slices and no view: only of a slice is it known that its numbers
// are of the format, `held`; with a view `write_panel_file_within` stays open at `returns`.)
fn put_nodes(out: &mut [u8], from: usize, x: &[f64], y: &[f64], z: &[f64]) -> usize
    requires { NodeColumnsAlike (mesh_of x.now y.now z.now [] [] []) × (from + length x.now * 24 ≤ length out.old) }
    ensures put { Put out.old from (node_rows (mesh_of x.now y.now z.now [] [] [])) out.new result }
    ensures held { Held (mesh_of x.now y.now z.now [] [] []) }
{
    let mut to = from;
    for k in 0..x.len() {
        let [a, b, c] = [x[k], y[k], z[k]].map(ieee754::canonical_bits);
        to = put_three(out, to, 8, a, b, c);
    }
    to
}

// The indices of every panel.
fn put_panels(out: &mut [u8], from: usize, panels: &PanelColumns) -> usize
    requires { PanelColumnsAlike (viewed_panels panels.now) × (from + length panels.now.t0.now * 6 ≤ length out.old) }
    ensures { Put out.old from (panel_rows (viewed_panels panels.now)) out.new result }
{
    let mut to = from;
    for i in 0..panels.t0.len() {
        let [a, b, c] = panels.triangle_indices(i);
        to = put_three(out, to, 2, a as u64, b as u64, c as u64);
    }
    to
}

// The writer's call, for an output of `size` bytes.
#[tactic(auto, unfolding(crate::specs::Write::write_refusal, refusal::specs::Checks::first))]
fn check_write(
    nodes: usize,
    panels: usize,
    mesh: &TriangleMeshView,
    size: usize,
) -> Result<(), Refusal>
    requires { (nodes < 2 ^ 16) × (panels < 2 ^ 16) }
    ensures { number_of result ≡ write_refusal nodes panels (viewed mesh.now) size }
{
    mesh::check_mesh_within(nodes, panels, mesh)?;
    if size != panel_file::length_due(0, mesh.nnode(), mesh.ntri()) {
        return Err(Refusal::Output);
    }
    Ok(())
}

// The writer under the limits of a call, each of which a count of 16 bits can hold: an output of
// exactly the file's length.
pub fn write_panel_file_within(
    nodes: usize,
    panels: usize,
    mesh: &TriangleMeshView,
    out: &mut [u8],
) -> Result<(), Refusal>
    requires { (nodes < 2 ^ 16) × (panels < 2 ^ 16) }
    ensures { Written nodes panels (viewed mesh.now) out.old (number_of result) out.new }
{
    check_write(nodes, panels, mesh, out.len())?;
    let behind_header = put_header(out, mesh.nnode(), mesh.ntri());
    let NodeColumns { x, y, z } = mesh.nodes;
    let behind_nodes = put_nodes(out, behind_header, x, y, z);
    put_panels(out, behind_nodes, &mesh.panels);
    Ok(())
}

// The writer.
pub fn write_panel_file(mesh: &TriangleMeshView, out: &mut [u8]) -> Result<(), Refusal>
    ensures { Written max_nodes max_panels (viewed mesh.now) out.old (number_of result) out.new }
{
    write_panel_file_within(mesh::MAX_NODES, mesh::MAX_PANELS, mesh, out)
}
