// The quadrature points of every panel and their area weights, panel after panel.
ghost use Rattle.std.specs.Prelude.{◌≡◌, ◌<◌, ◌+◌};
ghost use Rattle.binary64.specs.Binary64.{at, ◌⊗◌};
ghost use Rattle.tri.specs.Quadrature.{quadrature_count, quadrature_row};
ghost use Rattle.mesh.specs.Columns.{viewed};
ghost use Rattle.refusal.specs.Outcome.{number_of};
ghost use Rattle.mesh_points.specs.QuadraturePoints as Spec;
ghost use Rattle.mesh_points.specs.QuadraturePoints.{StoredPoint, Within, PointsReady, PointsWritten, PointsBy, PointsUnder};

use mesh::columns::TriangleMeshView;
use refusal::Refusal;
use tri::quadrature::QuadratureKind;

// Point k of a rule on a triangle.
#[tactic(auto, unfolding(crate::specs::QuadraturePoints::quadrature_point))]
fn quadrature_point(kind: QuadratureKind, t: [[f64; 3]; 3], k: usize) -> [f64; 3]
    requires { k < quadrature_count kind }
    ensures { result ≡ Spec.quadrature_point kind t k }
{
    let row = tri::quadrature::quadrature_row(kind, k);
    tri::mapping::map_point(t, row[1], row[2])
}

// The weight of point k of a rule on a triangle of this area.
fn quadrature_weight(kind: QuadratureKind, area: f64, k: usize) -> f64
    requires { k < quadrature_count kind }
    ensures { result ≡ at (quadrature_row kind k) 0 ⊗ area }
{
    let row = tri::quadrature::quadrature_row(kind, k);
    row[0] * area
}

// A point and its weight, into the four outputs at i, here and below as the C function lends them.
fn store_point(
    px: &mut [f64],
    py: &mut [f64],
    pz: &mut [f64],
    pw: &mut [f64],
    i: usize,
    v: [f64; 3],
    weight: f64,
)
    requires { Within (i + 1) px.old py.old pz.old pw.old }
    ensures { StoredPoint px.old py.old pz.old pw.old i v weight px.new py.new pz.new pw.new }
{
    px[i] = v[0];
    py[i] = v[1];
    pz[i] = v[2];
    pw[i] = weight;
}

// The points and weights of one panel, from index start.
fn fill_panel(
    kind: QuadratureKind,
    t: [[f64; 3]; 3],
    start: usize,
    px: &mut [f64],
    py: &mut [f64],
    pz: &mut [f64],
    pw: &mut [f64],
)
    requires { Within (start + quadrature_count kind) px.old py.old pz.old pw.old }
    ensures { Spec.PanelRun kind t start px.old py.old pz.old pw.old px.new py.new pz.new pw.new }
{
    let area = tri::mapping::area(t);
    let count = tri::quadrature::quadrature_count(kind);
    for k in 0..count {
        let point = quadrature_point(kind, t, k);
        let weight = quadrature_weight(kind, area, k);
        store_point(px, py, pz, pw, start + k, point, weight);
    }
}

// The points and weights of all panels of an accepted mesh.
fn fill_points(
    kind: QuadratureKind,
    mesh: &TriangleMeshView,
    px: &mut [f64],
    py: &mut [f64],
    pz: &mut [f64],
    pw: &mut [f64],
)
    requires { PointsReady kind (viewed mesh.now) px.old py.old pz.old pw.old }
    ensures { PointsWritten kind (viewed mesh.now) px.new py.new pz.new pw.new }
{
    let count = tri::quadrature::quadrature_count(kind);
    for i in 0..mesh.ntri() {
        fill_panel(kind, mesh.triangle_nodes(i), i * count, px, py, pz, pw);
    }
}

// The call under a rule.
#[tactic(auto, using(mesh::proofs::Refusals::refused_by, mesh::proofs::Refusals::done_passed), unfolding(crate::specs::QuadraturePoints::points_refusal, refusal::specs::Checks::first))]
fn check_points(
    kind: QuadratureKind,
    mesh: &TriangleMeshView,
    lx: usize,
    ly: usize,
    lz: usize,
    lw: usize,
) -> Result<(), Refusal>
    ensures { number_of result ≡ Spec.points_refusal kind (viewed mesh.now) lx ly lz lw }
{
    mesh::check_mesh(mesh)?;
    let due = mesh.ntri() * tri::quadrature::quadrature_count(kind);
    if lists::columns_differ(due, lx, ly, lz) | (lw != due) {
        return Err(Refusal::Output);
    }
    Ok(())
}

// The quadrature points of a mesh under a rule.
fn points_under(
    kind: QuadratureKind,
    mesh: &TriangleMeshView,
    px: &mut [f64],
    py: &mut [f64],
    pz: &mut [f64],
    pw: &mut [f64],
) -> Result<(), Refusal>
    ensures { PointsUnder kind (viewed mesh.now) px.old py.old pz.old pw.old (number_of result) px.new py.new pz.new pw.new }
{
    check_points(kind, mesh, px.len(), py.len(), pz.len(), pw.len())?;
    fill_points(kind, mesh, px, py, pz, pw);
    Ok(())
}

// The quadrature points of a mesh and their area weights, under the rule of a number from 1 to 5.
pub fn triangle_mesh_quadrature_points(
    rule: u32,
    mesh: &TriangleMeshView,
    px: &mut [f64],
    py: &mut [f64],
    pz: &mut [f64],
    pw: &mut [f64],
) -> Result<(), Refusal>
    ensures { PointsBy rule (viewed mesh.now) px.old py.old pz.old pw.old (number_of result) px.new py.new pz.new pw.new }
{
    let Some(kind) = tri::quadrature::quadrature_rule(rule) else {
        return Err(Refusal::NoSuchChoice);
    };
    points_under(kind, mesh, px, py, pz, pw)
}
