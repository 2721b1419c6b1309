// Document 01's panel file and its reader. The mesh is tested on the file's own bytes, so that
// nothing is written before every test has passed.
#![tactic(auto)]

ghost use Rattle.std.specs.Prelude.{◌≡◌, ◌+◌, ◌^◌, ◌≤◌, ◌<◌, length, IfOk};
ghost use Rattle.binary64.specs.Binary64.{bits};
ghost use Rattle.refusal.specs.Outcome.{number_of};
ghost use Rattle.mesh.specs.Mesh.{max_nodes, max_panels, written_mesh, mesh_of};
ghost use Rattle.panel_file.specs.LittleEndian.{little_endian};
ghost use Rattle.panel_file.specs.PanelFile as Spec;
ghost use Rattle.panel_file.specs.PanelFile.{Read};

pub mod file;

use file::PanelFile;
use refusal::Refusal;

// The bytes before the first node.
pub const HEADER: usize = 9;

// The number in the bytes from `from` on, the lowest first: read from the highest down.
pub fn little_endian(bytes: &[u8], from: usize, width: usize) -> u64
    requires { (width ≤ 8) × (from + width ≤ length bytes.now) }
    ensures value { result ≡ little_endian width bytes.now from }
    ensures upper_bound { result < 256 ^ width }
{
    let mut n: u64 = 0;
    for k in (0..width).rev() {
        n = n * 256 + u64::from(bytes[from + k]);
    }
    n
}

// The number of a bit pattern, of a NaN's too.
pub fn from_bits(n: u64) -> f64
    ensures { result ≡ bits n }
{
    if n % 0x8000_0000_0000_0000 > 0x7ff0_0000_0000_0000 {
        ieee754::not_a_number()
    } else {
        f64::from_bits(n)
    }
}

pub fn node_count(bytes: &[u8]) -> usize
    requires { 9 ≤ length bytes.now }
    ensures value { result ≡ Spec.node_count bytes.now }
    ensures upper_bound { result < 2 ^ 16 }
{
    little_endian(bytes, 5, 2) as usize
}

pub fn panel_count(bytes: &[u8]) -> usize
    requires { 9 ≤ length bytes.now }
    ensures value { result ≡ Spec.panel_count bytes.now }
    ensures upper_bound { result < 2 ^ 16 }
{
    little_endian(bytes, 7, 2) as usize
}

// The value of node k behind p panels. (It asks less than a `PanelFile` promises, so it takes none.)
#[tactic(auto, unfolding(crate::specs::PanelFile::nodal_value))]
pub fn nodal_value(bytes: &[u8], n: usize, p: usize, k: usize) -> f64
    requires { (n < 2 ^ 16) × (p < 2 ^ 16) × (k < n) × (Spec.value_place n p n ≤ length bytes.now) }
    ensures { result ≡ Spec.nodal_value bytes.now n p k }
{
    from_bits(little_endian(bytes, HEADER + (n * 24 + p * 6 + k * 8), 8))
}

// 14
#[tactic(auto, unfolding(crate::specs::PanelFile::marks_differ))]
fn marks_differ(bytes: &[u8]) -> bool
    ensures { result ≡ Spec.marks_differ bytes.now }
{
    if bytes.len() < HEADER {
        return true;
    }
    let version = little_endian(bytes, 3, 2);
    (bytes[0] != 80) | ((bytes[1] != 78) | ((bytes[2] != 76) | (version != 1)))
}

// The bytes of a file of n nodes and p panels with `extra` f64 a node behind them.
#[tactic(auto, using(crate::proofs::Numbers::few_values), unfolding(crate::specs::PanelFile::length_due))]
pub fn length_due(extra: usize, n: usize, p: usize) -> usize
    requires { (extra < 2 ^ 16) × (n < 2 ^ 16) × (p < 2 ^ 16) }
    ensures { result ≡ Spec.length_due extra n p }
{
    HEADER + (n * 24 + p * 6 + extra * n * 8)
}

// A file under the limits of a call, with `extra` f64 a node behind it.
#[tactic(auto, unfolding(crate::specs::PanelFile::file_refusal, crate::specs::PanelFile::file_checks, crate::specs::PanelFile::length_differs, refusal::specs::Checks::first))]
pub fn check_file(
    nodes: usize,
    panels: usize,
    extra: usize,
    bytes: &[u8],
) -> Result<PanelFile<'_>, Refusal>
    requires { extra < 2 ^ 16 }
    ensures number { number_of result ≡ Spec.file_refusal nodes panels extra bytes.now }
    ensures file { IfOk result (λ file. file.bytes.now ≡ bytes.now) }
{
    if marks_differ(bytes) {
        return Err(Refusal::Mark);
    }
    let n = node_count(bytes);
    let p = panel_count(bytes);
    if mesh::passes_limits(nodes, panels, n, p) {
        return Err(Refusal::TooLarge);
    }
    if bytes.len() != length_due(extra, n, p) {
        return Err(Refusal::FileLength);
    }
    let file = PanelFile {
        bytes,
        nodes: n,
        panels: p,
    };
    if file.some_misses_node() {
        return Err(Refusal::MissingNode);
    }
    if file.some_zero_area() {
        return Err(Refusal::ZeroArea);
    }
    Ok(file)
}

// The reader under the limits of a call: six columns of exactly the file's counts. (Six and no
// struct of `&mut` columns: `Read` names each as it was lent and as it is left.)
pub fn read_panel_file_within(
    nodes: usize,
    panels: usize,
    bytes: &[u8],
    x: &mut [f64],
    y: &mut [f64],
    z: &mut [f64],
    t0: &mut [usize],
    t1: &mut [usize],
    t2: &mut [usize],
) -> Result<(), Refusal>
    ensures { Read nodes panels bytes.now (mesh_of x.old y.old z.old t0.old t1.old t2.old) (number_of result) (written_mesh x y z t0 t1 t2) }
{
    let file = check_file(nodes, panels, 0, bytes)?;
    let n = lists::columns_differ(file.nodes, x.len(), y.len(), z.len());
    let p = lists::columns_differ(file.panels, t0.len(), t1.len(), t2.len());
    if n | p {
        return Err(Refusal::Output);
    }
    file.fill_coordinates(0, x);
    file.fill_coordinates(1, y);
    file.fill_coordinates(2, z);
    file.fill_indices(0, t0);
    file.fill_indices(1, t1);
    file.fill_indices(2, t2);
    Ok(())
}

// The reader.
pub fn read_panel_file(
    bytes: &[u8],
    x: &mut [f64],
    y: &mut [f64],
    z: &mut [f64],
    t0: &mut [usize],
    t1: &mut [usize],
    t2: &mut [usize],
) -> Result<(), Refusal>
    ensures { Read max_nodes max_panels bytes.now (mesh_of x.old y.old z.old t0.old t1.old t2.old) (number_of result) (written_mesh x y z t0 t1 t2) }
{
    read_panel_file_within(
        mesh::MAX_NODES,
        mesh::MAX_PANELS,
        bytes,
        x,
        y,
        z,
        t0,
        t1,
        t2,
    )
}
