// inductance.rs: the nodal inductance matrix of a triangle mesh, and the cells of marked nodes worked out
// anew. The same loops serve both; cells below the diagonal are copies of those above.
#![tactic(auto)]

ghost use Rattle.std.specs.Prelude.{◌≡◌};
ghost use Rattle.refusal.specs.Outcome.{number_of};
ghost use Rattle.mesh.specs.Columns.{viewed};
ghost use Rattle.pair_loops.specs.Ready.{Ready};
ghost use Rattle.inductance.specs.Assembly.{renewed_under, sized_refusal, Assembled, AssembledUnder};

use mesh::columns::TriangleMeshView;
use refusal::Refusal;
use scatter::{LinkedSet, MarkSet};
use tri::quadrature::QuadratureKind;

// Named cells become the mesh's fresh cells, every other cell keeps its number.
pub fn renew(kind: QuadratureKind, mesh: &TriangleMeshView, marks: &[bool], out: &mut [f64])
    requires { Ready (viewed mesh.now) out.old marks.now }
    ensures { out.new ≡ renewed_under kind marks.now (viewed mesh.now) out.old }
{
    let mut flags = [false; mesh::MAX_PANELS];
    scatter::flag_panels(&mesh.panels, marks, &mut flags);
    let panels = MarkSet {
        count: mesh.ntri(),
        marks: &flags,
    };
    let mut links: [usize; mesh::MAX_PANELS] = [0; mesh::MAX_PANELS];
    scatter::link_marked(&panels, &mut links);
    let flagged = LinkedSet {
        set: panels,
        links: &links,
    };
    let nodes = MarkSet {
        count: mesh.nnode(),
        marks,
    };
    scatter::clear_named(out, &nodes);
    pair_loops::add_all(kind, mesh, marks, &flagged, out);
    scatter::copy_below(out, &nodes);
}

// Mesh and matrix before a call that fills a matrix of the mesh's nodes.
#[tactic(auto, using(mesh::proofs::Refusals::refused_by, mesh::proofs::Refusals::done_passed), unfolding(crate::specs::Assembly::sized_refusal, refusal::specs::Checks::first))]
fn check_sized(mesh: &TriangleMeshView, size: usize) -> Result<(), Refusal>
    ensures { number_of result ≡ sized_refusal (viewed mesh.now) size }
{
    mesh::check_mesh(mesh)?;
    let n = mesh.nnode();
    if size != n * n {
        return Err(Refusal::Output);
    }
    Ok(())
}

// The matrix under a rule.
fn matrix_under(
    kind: QuadratureKind,
    mesh: &TriangleMeshView,
    out: &mut [f64],
) -> Result<(), Refusal>
    ensures { AssembledUnder kind (viewed mesh.now) out.old (number_of result) out.new }
{
    check_sized(mesh, out.len())?;
    let marks = [true; mesh::MAX_NODES];
    renew(kind, mesh, &marks, out);
    Ok(())
}

// The inductance matrix of a mesh, row by row, under the rule of a number.
pub fn triangle_mesh_inductance_matrix(
    rule: u32,
    mesh: &TriangleMeshView,
    out: &mut [f64],
) -> Result<(), Refusal>
    ensures { Assembled rule (viewed mesh.now) out.old (number_of result) out.new }
{
    let Some(kind) = tri::quadrature::quadrature_rule(rule) else {
        return Err(Refusal::NoSuchChoice);
    };
    matrix_under(kind, mesh, out)
}
