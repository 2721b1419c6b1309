// Saving a shape and dropping one: behind the mesh stand the store and the name. The call is lent copies of what it may change.
// The case's bytes stand in b, eight to a word.
#![tactic(auto)]

ghost use Rattle.std.specs.Prelude.{◌≡◌, ◌+◌, ◌≤◌};
ghost use Rattle.refusal.specs.Outcome.{number_of};
ghost use Rattle.mesh.specs.Columns.{viewed};
ghost use Rattle.shape_store.specs.Store.{viewed_store, with_shapes, store_of};
ghost use Rattle.replay_columns.specs.Store.{part_at};
ghost use Rattle.replay_shapes.specs.Shapes as Spec;

use mesh::columns::{NodeColumns, TriangleMeshView};
use refusal::Refusal;
use replay_columns::after::kept_columns;
use replay_columns::columns::{column_at, mesh_at};
use replay_columns::store::{name_at, part, part_at};
use replay_words::bytes::kept_bytes;
use replay_words::copies::copied;
use replay_words::words::same_refusal;
use shape_store::ShapeStore;

// The store that begins at place q.
pub fn store_at<'a>(
    b: &'a [u8; 16384],
    f: &'a [f64; 2048],
    w: &[u64; 2048],
    q: usize,
) -> ShapeStore<'a>
    requires { q ≤ 875 }
    ensures value { viewed_store result ≡ Spec.store_at b.now f.now w.now q }
    ensures short { Spec.PartsShort (viewed_store result) }
{
    ShapeStore {
        marks: part::<u8, 8>(b, w, q, 0),
        names: part::<u8, 8>(b, w, q, 1),
        shapes: NodeColumns {
            x: part::<f64, 1>(f, w, q, 2),
            y: part::<f64, 1>(f, w, q, 3),
            z: part::<f64, 1>(f, w, q, 4),
        },
    }
}

// Number and store after a save, and the store before it.
fn saved_as_due(
    outcome: &Result<(), Refusal>,
    now: &ShapeStore,
    before: &ShapeStore,
    b: &[u8; 16384],
    w: &[u64; 2048],
    k: usize,
) -> bool
    requires k_bound { (k ≤ 704) × Spec.ColumnsShort (viewed_store before.now) }
    requires as_long { Spec.AsLong (viewed_store now.now) (viewed_store before.now) }
    ensures { result ≡ Spec.saved_as_due (number_of outcome.now) (viewed_store now.now) (viewed_store before.now) b.now w.now k }
{
    let due_marks = part::<u8, 8>(b, w, k + 1, 0);
    let due_names = part::<u8, 8>(b, w, k + 1, 1);
    let p = part_at(w, k + 1, 2);
    let number = same_refusal(outcome, w, k);
    let first = kept_bytes(outcome, now.marks, before.marks, due_marks);
    let second = kept_bytes(outcome, now.names, before.names, due_names);
    let columns = kept_columns(outcome, &now.shapes, &before.shapes, w, p);
    number & first & second & columns
}

// The call on copies of the store, compared; the name stands at place e.
fn save_into(
    mesh: &TriangleMeshView,
    marks: &mut [u8],
    names: &mut [u8],
    x: &mut [f64],
    y: &mut [f64],
    z: &mut [f64],
    before: &ShapeStore,
    b: &[u8; 16384],
    w: &[u64; 2048],
    e: usize,
) -> bool
    requires e_bound { (e ≤ 703) × Spec.ColumnsShort (viewed_store before.now) }
    requires z_value { store_of marks.old names.old x.old y.old z.old ≡ viewed_store before.now }
    ensures { result ≡ Spec.save_into (viewed mesh.now) (store_of marks.old names.old x.old y.old z.old) b.now w.now e }
{
    let name = name_at(b, e);
    let outcome = shape_store::save_shape(mesh, marks, names, x, y, z, &name);
    let now = ShapeStore::lent(marks, names, x, y, z);
    saved_as_due(&outcome, &now, before, b, w, e + 1)
}

// The store begins at place q.
fn save_of(
    mesh: &TriangleMeshView,
    b: &[u8; 16384],
    f: &[f64; 2048],
    w: &[u64; 2048],
    q: usize,
) -> bool
    requires { q ≤ 298 }
    ensures { result ≡ Spec.save_into (viewed mesh.now) (Spec.store_at b.now f.now w.now q) b.now w.now (part_at w.now q 5) }
{
    let store = store_at(b, f, w, q);
    let shapes = store.shapes;
    let e = part_at(w, q, 5);
    let mut marks = copied::<u8, 80>(store.marks, 0);
    let mut names = copied::<u8, 80>(store.names, 0);
    let mut x = copied::<f64, 80>(shapes.x, 0.0);
    let mut y = copied::<f64, 80>(shapes.y, 0.0);
    let mut z = copied::<f64, 80>(shapes.z, 0.0);
    save_into(
        mesh,
        &mut marks[0..store.marks.len()],
        &mut names[0..store.names.len()],
        &mut x[0..shapes.x.len()],
        &mut y[0..shapes.y.len()],
        &mut z[0..shapes.z.len()],
        &store,
        b,
        w,
        e,
    )
}

// The save of a case.
#[tactic(auto, unfolding(crate::specs::Shapes::save_case))]
fn save_case(b: &[u8; 16384], f: &[f64; 2048], u: &[usize; 2048], w: &[u64; 2048]) -> bool
    ensures { result ≡ Spec.save_case b.now f.now u.now w.now }
{
    let mesh = mesh_at(f, u, w, 0);
    save_of(&mesh, b, f, w, column_at(w, 0, 6))
}

// Number and marks after a drop, and the marks before it.
#[tactic(auto, unfolding(crate::specs::Shapes::dropped_as_due, replay_columns::specs::Store::part_at))]
fn dropped_as_due(
    outcome: &Result<(), Refusal>,
    marks: &[u8],
    before: &[u8],
    b: &[u8; 16384],
    w: &[u64; 2048],
    k: usize,
) -> bool
    requires { k ≤ 704 }
    ensures { result ≡ Spec.dropped_as_due (number_of outcome.now) marks.now before.now b.now w.now k }
{
    let due = part::<u8, 8>(b, w, k + 1, 0);
    let number = same_refusal(outcome, w, k);
    let kept = kept_bytes(outcome, marks, before, due);
    number & kept
}

// The call on a copy of the marks, compared; the name stands at place e.
fn drop_into(
    mesh: &TriangleMeshView,
    marks: &mut [u8],
    before: &ShapeStore,
    b: &[u8; 16384],
    w: &[u64; 2048],
    e: usize,
) -> bool
    requires { (e ≤ 703) × (marks.old ≡ before.now.marks.now) }
    ensures { result ≡ Spec.drop_into (viewed mesh.now) (with_shapes marks.old before.now.names.now before.now.shapes) b.now w.now e }
{
    let name = name_at(b, e);
    let outcome = shape_store::drop_shape(mesh, marks, before.names, &before.shapes, &name);
    dropped_as_due(&outcome, marks, before.marks, b, w, e + 1)
}

// The store begins at place q.
fn drop_of(
    mesh: &TriangleMeshView,
    b: &[u8; 16384],
    f: &[f64; 2048],
    w: &[u64; 2048],
    q: usize,
) -> bool
    requires { q ≤ 298 }
    ensures { result ≡ Spec.drop_into (viewed mesh.now) (Spec.store_at b.now f.now w.now q) b.now w.now (part_at w.now q 5) }
{
    let store = store_at(b, f, w, q);
    let e = part_at(w, q, 5);
    let mut marks = copied::<u8, 80>(store.marks, 0);
    drop_into(mesh, &mut marks[0..store.marks.len()], &store, b, w, e)
}

// The drop of a case.
#[tactic(auto, unfolding(crate::specs::Shapes::drop_case))]
fn drop_case(b: &[u8; 16384], f: &[f64; 2048], u: &[usize; 2048], w: &[u64; 2048]) -> bool
    ensures { result ≡ Spec.drop_case b.now f.now u.now w.now }
{
    let mesh = mesh_at(f, u, w, 0);
    drop_of(&mesh, b, f, w, column_at(w, 0, 6))
}

// By the kind's number.
#[tactic(auto, unfolding(crate::specs::Shapes::shapes_agree))]
pub fn agree(
    kind: u64,
    b: &[u8; 16384],
    f: &[f64; 2048],
    u: &[usize; 2048],
    w: &[u64; 2048],
) -> bool
    ensures { result ≡ Spec.shapes_agree kind b.now f.now u.now w.now }
{
    match kind {
        59 => save_case(b, f, u, w),
        60 => drop_case(b, f, u, w),
        _ => false,
    }
}
