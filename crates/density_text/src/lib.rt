// Program `density` as a function from bytes to bytes: what it prints for its standard input.
#![tactic(auto)]

ghost use Rattle.std.specs.Prelude.{◌≡◌, ◌+◌, ◌*◌, ◌≤◌, ◌<◌, length};
ghost use Rattle.binary64.specs.Binary64.{at};
ghost use Rattle.refusal.specs.Outcome.{number};
ghost use Rattle.lists.specs.Putting.{Put};
ghost use Rattle.io.specs.Counts.{IsPrefixLen};
ghost use Rattle.boundary_element.specs.CurrentDensity.{panel_density};
ghost use Rattle.panel_file.specs.LittleEndian.{rows_from};
ghost use Rattle.panel_file.specs.PanelFile.{decode};
ghost use Rattle.density_text.specs.Text as Spec;
ghost use Rattle.density_text.specs.Text.{Input};

use lists::put;
use panel_file::file::PanelFile;
use refusal::Refusal;

// Document 01's limits of the program.
const MAX_NODES: usize = 64;

const MAX_PANELS: usize = 128;

// A number below 1,000 in decimal.
fn put_decimal(out: &mut [u8], from: usize, n: usize) -> usize
    requires { (n < 1000) × (from + 3 ≤ length out.old) }
    ensures { Put out.old from (Spec.decimal n) out.new result }
{
    let mut digits = [0u8; 20];
    let k = io::decimal(n as u64, &mut digits);
    put(out, from, &digits[..k])
}

// A space and a number's bits.
fn put_field(out: &mut [u8], from: usize, x: f64) -> usize
    requires { from + 17 ≤ length out.old }
    ensures { Put out.old from (Spec.field x) out.new result }
{
    let mut digits = [0u8; 16];
    let k = io::hex(ieee754::canonical_bits(x), 16, &mut digits);
    let to = put(out, from, b" ");
    put(out, to, &digits[..k])
}

// The value of node k of an accepted input.
fn nodal_value(input: &PanelFile, k: usize) -> f64
    requires { Input input.now.nodes input.now.panels input.now.bytes.now × (k < input.now.nodes) }
    ensures { result ≡ at (Spec.nodal_values input.now.bytes.now) k }
{
    panel_file::nodal_value(input.bytes, input.nodes, input.panels, k)
}

// The density of panel i of an accepted input.
fn density(input: &PanelFile, i: usize) -> [f64; 3]
    requires { Input input.now.nodes input.now.panels input.now.bytes.now × (i < input.now.panels) }
    ensures { result ≡ panel_density (decode input.now.bytes.now) (Spec.nodal_values input.now.bytes.now) i }
{
    let [a, b, c] = input.triangle_indices(i);
    let values = [
        nodal_value(input, a),
        nodal_value(input, b),
        nodal_value(input, c),
    ];
    boundary_element::current_density::triangle_current_density(input.triangle_nodes(i), values)
}

// A panel's line, of at most 55 bytes.
#[tactic(auto, using(crate::proofs::Numerals::decimal_short, crate::proofs::Numerals::field_length))]
fn put_panel(out: &mut [u8], from: usize, i: usize, j: [f64; 3]) -> usize
    requires { (i < 1000) × (from + 55 ≤ length out.old) }
    ensures { Put out.old from (Spec.line i j) out.new result }
{
    let a = put_decimal(out, from, i);
    let b = put_field(out, a, j[0]);
    let c = put_field(out, b, j[1]);
    let d = put_field(out, c, j[2]);
    put(out, d, b"\n")
}

// Every panel's line.
fn put_panels(out: &mut [u8], from: usize, input: &PanelFile) -> usize
    requires { Input input.now.nodes input.now.panels input.now.bytes.now × (from + input.now.panels * 55 ≤ length out.old) }
    ensures { Put out.old from (rows_from (Spec.panel_line input.now.bytes.now) 0 input.now.panels) out.new result }
{
    let mut to = from;
    for i in 0..input.panels {
        to = put_panel(out, to, i, density(input, i));
    }
    to
}

// The line of a refusal.
#[tactic(auto, using(crate::proofs::Numerals::decimal_short, crate::proofs::Numerals::refusal_short))]
fn put_refused(out: &mut [u8], refusal: Refusal) -> usize
    requires { 12 ≤ length out.old }
    ensures { Put out.old 0 (Spec.refused_line (number refusal)) out.new result }
{
    let a = put(out, 0, b"refused ");
    let b = put_decimal(out, a, refusal.number() as usize);
    put(out, b, b"\n")
}

// Line one, of at most 14 bytes.
#[tactic(auto, using(crate::proofs::Numerals::decimal_short, crate::proofs::Numerals::field_length))]
fn put_first(out: &mut [u8], n: usize, p: usize) -> usize
    requires { (n < 1000) × (p < 1000) × (14 ≤ length out.old) }
    ensures { Put out.old 0 (Spec.first_line n p) out.new result }
{
    let a = put(out, 0, b"PNL 1 ");
    let b = put_decimal(out, a, n);
    let c = put(out, b, b" ");
    let d = put_decimal(out, c, p);
    put(out, d, b"\n")
}

// What the program prints for an input, put at the start of out; the answer is how many bytes.
// Line one and 128 panel lines have at most 7,054.
pub fn density_text(bytes: &[u8], out: &mut [u8]) -> usize
    requires { 7054 ≤ length out.old }
    ensures put { Put out.old 0 (Spec.text bytes.now) out.new result }
    ensures prefix_len { IsPrefixLen result out.new }
{
    match panel_file::check_file(MAX_NODES, MAX_PANELS, 1, bytes) {
        Err(refusal) => put_refused(out, refusal),
        Ok(input) => {
            let to = put_first(out, input.nodes, input.panels);
            put_panels(out, to, &input)
        }
    }
}
