// CR 5's store for eight shapes of one mesh: the place of a name, saving a shape and dropping one. Every test is
// made before anything is written.
#![tactic(auto)]

ghost use Rattle.std.specs.Prelude.{◌≡◌, ◌==◌, [], ◌*◌, ◌<◌, ◌≤◌, length, position};
ghost use Rattle.refusal.specs.Outcome.{number_of};
ghost use Rattle.mesh.specs.Mesh.{max_nodes};
ghost use Rattle.mesh.specs.Columns.{viewed};
ghost use Rattle.shape_store.specs.Store as Spec;
ghost use Rattle.shape_store.specs.Store.{store_of, viewed_store, with_shapes, places, place_below, name_length, Saved, Dropped};

use mesh::columns::{NodeColumns, TriangleMeshView};
use refusal::Refusal;

pub const PLACES: usize = 8;

pub const NAME_LENGTH: usize = 8;

// A lent store: a mark and a name for each place, and the places' coordinates one behind the other.
#[derive(Clone, Copy)]
pub struct ShapeStore<'a> {
    pub marks: &'a [u8],
    pub names: &'a [u8],
    pub shapes: NodeColumns<'a>,
}

impl<'a> ShapeStore<'a> {
    // Five lent slices.
    pub fn lent(
        marks: &'a [u8],
        names: &'a [u8],
        x: &'a [f64],
        y: &'a [f64],
        z: &'a [f64],
    ) -> ShapeStore<'a>
        ensures { viewed_store result ≡ store_of marks.now names.now x.now y.now z.now }
    {
        ShapeStore {
            marks,
            names,
            shapes: NodeColumns { x, y, z },
        }
    }

    // 6: a store that is not eight places of n nodes.
    #[tactic(auto, unfolding(crate::specs::Store::store_differs))]
    pub fn differs(&self, n: usize) -> bool
        requires { n ≤ max_nodes }
        ensures { result ≡ Spec.store_differs n (viewed_store self.now) }
    {
        let shapes = &self.shapes;
        (self.marks.len() != PLACES)
            | ((self.names.len() != PLACES * NAME_LENGTH)
                | lists::columns_differ(PLACES * n, shapes.x.len(), shapes.y.len(), shapes.z.len()))
    }
}

// The name at place p is that name.
fn same_name(names: &[u8], name: &[u8; 8], p: usize) -> bool
    requires { (length names.now ≡ places * name_length) × (p < places) }
    ensures { result ≡ Spec.same_name names.now name.now p }
{
    let start = p * NAME_LENGTH;
    names[start..start + NAME_LENGTH] == name[..]
}

// The first place that holds the name.
pub fn find_name(marks: &[u8], names: &[u8], name: &[u8; 8]) -> Option<usize>
    requires { (length marks.now ≡ places) × (length names.now ≡ places * name_length) }
    ensures { result ≡ place_below (Spec.place_of (store_of marks.now names.now [] [] []) name.now) }
{
    for p in 0..PLACES {
        if (marks[p] != 0) & same_name(names, name, p) {
            return Some(p);
        }
    }
    None
}

// The first free place.
fn find_free(marks: &[u8]) -> Option<usize>
    ensures { result ≡ position (λ mark. mark == 0) marks.now }
{
    marks.iter().position(|mark| *mark == 0)
}

// Where a shape of that name is saved.
fn place_for(marks: &[u8], names: &[u8], name: &[u8; 8]) -> Option<usize>
    requires { (length marks.now ≡ places) × (length names.now ≡ places * name_length) }
    ensures { result ≡ place_below (Spec.place_for (store_of marks.now names.now [] [] []) name.now) }
{
    match find_name(marks, names, name) {
        Some(p) => Some(p),
        None => find_free(marks),
    }
}

// The tests of mesh and store, before the name is looked for.
#[tactic(auto, using(mesh::proofs::Refusals::refused_by, mesh::proofs::Refusals::done_passed), unfolding(crate::specs::Store::store_refusal, refusal::specs::Checks::first))]
fn check_store(mesh: &TriangleMeshView, store: &ShapeStore) -> Result<(), Refusal>
    ensures { number_of result ≡ Spec.store_refusal (viewed mesh.now) (viewed_store store.now) }
{
    mesh::check_mesh(mesh)?;
    if store.differs(mesh.nnode()) {
        return Err(Refusal::Output);
    }
    Ok(())
}

// A new name takes its place with the mark 1; a held one keeps its mark.
fn name_place(marks: &mut [u8], names: &mut [u8], name: &[u8; 8], p: usize)
    requires { (length marks.old ≡ places) × (length names.old ≡ places * name_length) × (p < places) }
    ensures marks_value { marks.new ≡ Spec.marks_with (store_of marks.old names.old [] [] []) name.now p }
    ensures names_value { names.new ≡ Spec.names_with (store_of marks.old names.old [] [] []) name.now p }
{
    let is_new = find_name(marks, names, name).is_none();
    if is_new {
        lists::put(names, p * NAME_LENGTH, name);
        marks[p] = 1;
    }
}

// The coordinates of a shape at place p.
fn save_coordinates(nodes: &NodeColumns, sx: &mut [f64], sy: &mut [f64], sz: &mut [f64], p: usize)
    requires { Spec.ColumnsReady (store_of [] [] sx.old sy.old sz.old) nodes.now.x.now nodes.now.y.now nodes.now.z.now p }
    ensures sx_value { sx.new ≡ Spec.column_with sx.old p nodes.now.x.now }
    ensures sy_value { sy.new ≡ Spec.column_with sy.old p nodes.now.y.now }
    ensures sz_value { sz.new ≡ Spec.column_with sz.old p nodes.now.z.now }
{
    let start = p * nodes.x.len();
    lists::put(sx, start, nodes.x);
    lists::put(sy, start, nodes.y);
    lists::put(sz, start, nodes.z);
}

// Saves the mesh's shape under a name: over the shape of that name, or at the first free place. The store is lent
// as five slices: a struct of five `&mut` would be no plainer, since each function would have to promise that it
// leaves the same references there.
pub fn save_shape(
    mesh: &TriangleMeshView,
    marks: &mut [u8],
    names: &mut [u8],
    sx: &mut [f64],
    sy: &mut [f64],
    sz: &mut [f64],
    name: &[u8; 8],
) -> Result<(), Refusal>
    ensures { Saved (viewed mesh.now) (store_of marks.old names.old sx.old sy.old sz.old) name.now (number_of result)
        (store_of marks.new names.new sx.new sy.new sz.new) }
{
    let store = ShapeStore::lent(marks, names, sx, sy, sz);
    check_store(mesh, &store)?;
    let Some(p) = place_for(marks, names, name) else {
        return Err(Refusal::NoPlace);
    };
    save_coordinates(&mesh.nodes, sx, sy, sz, p);
    name_place(marks, names, name, p);
    Ok(())
}

// Drops the shape of a name: its place is free then.
pub fn drop_shape(
    mesh: &TriangleMeshView,
    marks: &mut [u8],
    names: &[u8],
    shapes: &NodeColumns,
    name: &[u8; 8],
) -> Result<(), Refusal>
    ensures { Dropped (viewed mesh.now) (with_shapes marks.old names.now shapes.now) name.now (number_of result) (with_shapes marks.new names.now shapes.now) }
{
    let store = ShapeStore {
        marks,
        names,
        shapes: *shapes,
    };
    check_store(mesh, &store)?;
    let Some(p) = find_name(marks, names, name) else {
        return Err(Refusal::UnknownName);
    };
    marks[p] = 0;
    Ok(())
}
