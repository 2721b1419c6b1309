// Additions to a nodal matrix of n rows and n columns, row by row, as in `scatter_triangle_block` and
// `scatter_triangle_block_transpose` of inductance.rs. Only cells with a marked row or column change:
// with every node marked the whole matrix is assembled, with a ring marked the cells that a move names.
// Additions are made on and above the diagonal; a cell below it is then a copy of the one above.
#![tactic(auto)]

ghost use Rattle.std.specs.Prelude.{◌≡◌, [], ◌∷◌, ◌<◌, ◌≤◌, ◌*◌, ◌-◌, length};
ghost use Rattle.binary64.specs.Binary64.{plus_zero};
ghost use Rattle.mesh.specs.Mesh.{max_nodes};
ghost use Rattle.mesh.specs.Columns.{viewed_panels};
ghost use Rattle.mesh.specs.Conditions.{PanelColumnsAlike};
ghost use Rattle.lists.specs.Counting.{any_of, triple, next_from};
ghost use Rattle.lists.specs.Filling.{run};
ghost use Rattle.scatter.specs.Entries.{entry, row_entries, block_entries, oriented, with_transposed};
ghost use Rattle.scatter.specs.Renewal.{named, renewed_cell, renewed, add_at, renewing, marked, Sized, AllBelow};
ghost use Rattle.scatter.specs.Mirror.{mirrored, cells_of, copied_below};
ghost use Rattle.scatter.specs.Links.{LinksNext};
ghost use Rattle.scatter.specs.Flags.{IndicesBelow, Flagged};

use mesh::columns::PanelColumns;

// Of the numbers below `count`, a matrix's nodes or a mesh's panels, those that are marked.
#[derive(Clone, Copy)]
pub struct MarkSet<'a> {
    pub count: usize,
    pub marks: &'a [bool],
}

// A set, and for each number below `count` the first of the set from it up.
#[derive(Clone, Copy)]
pub struct LinkedSet<'a> {
    pub set: MarkSet<'a>,
    pub links: &'a [usize],
}

// The cells stand beside the set: in a struct with it they would be no plainer, since each function would have to
// promise that it leaves the same reference, count and marks there.

// One addition.
fn add_at(out: &mut [f64], n: usize, row: usize, col: usize, v: f64)
    requires { (n ≤ max_nodes) × (length out.old ≡ n * n) × (row < n) × (col < n) }
    ensures { out.new ≡ add_at n out.old (entry row col v) }
{
    let k = row * n + col;
    out[k] = out[k] + v;
}

// One addition, if its cell is named and not below the diagonal.
fn add_named(out: &mut [f64], nodes: &MarkSet, row: usize, col: usize, v: f64)
    requires sized { Sized nodes.now.count out.old nodes.now.marks.now }
    requires row_lt_n { (row < nodes.now.count) × (col < nodes.now.count) }
    ensures { out.new ≡ renewing (marked nodes.now.marks.now) nodes.now.count out.old (entry row col v ∷ []) }
{
    if (nodes.marks[row] | nodes.marks[col]) & (row <= col) {
        add_at(out, nodes.count, row, col, v);
    }
}

// The same, to the transposed cell if so asked.
fn add_oriented(out: &mut [f64], nodes: &MarkSet, row: usize, col: usize, v: f64, transposed: bool)
    requires sized { Sized nodes.now.count out.old nodes.now.marks.now }
    requires row_lt_n { (row < nodes.now.count) × (col < nodes.now.count) }
    ensures { out.new ≡ renewing (marked nodes.now.marks.now) nodes.now.count out.old (oriented transposed (entry row col v ∷ [])) }
{
    if transposed {
        add_named(out, nodes, col, row, v);
    } else {
        add_named(out, nodes, row, col, v);
    }
}

// One row of a block.
fn add_row(
    out: &mut [f64],
    nodes: &MarkSet,
    row: usize,
    t: [usize; 3],
    v: [f64; 3],
    transposed: bool,
)
    requires sized { Sized nodes.now.count out.old nodes.now.marks.now }
    requires row_lt_n { (row < nodes.now.count) × AllBelow nodes.now.count (triple t) }
    ensures { out.new ≡ renewing (marked nodes.now.marks.now) nodes.now.count out.old (oriented transposed (row_entries row (triple t) v 0)) }
{
    add_oriented(out, nodes, row, t[0], v[0], transposed);
    add_oriented(out, nodes, row, t[1], v[1], transposed);
    add_oriented(out, nodes, row, t[2], v[2], transposed);
}

// A block at the source nodes s and the target nodes t, rows then columns.
pub fn scatter_triangle_block(
    out: &mut [f64],
    nodes: &MarkSet,
    s: [usize; 3],
    t: [usize; 3],
    b: [f64; 9],
    transposed: bool,
)
    requires sized { Sized nodes.now.count out.old nodes.now.marks.now }
    requires all_below { AllBelow nodes.now.count (triple s) × AllBelow nodes.now.count (triple t) }
    ensures { out.new ≡ renewing (marked nodes.now.marks.now) nodes.now.count out.old (oriented transposed (block_entries (triple s) (triple t) b 0)) }
{
    add_row(out, nodes, s[0], t, [b[0], b[1], b[2]], transposed);
    add_row(out, nodes, s[1], t, [b[3], b[4], b[5]], transposed);
    add_row(out, nodes, s[2], t, [b[6], b[7], b[8]], transposed);
}

// The block of a pair of panels and, unless it is one panel with itself, the same block transposed.
pub fn scatter_pair(
    out: &mut [f64],
    nodes: &MarkSet,
    s: [usize; 3],
    t: [usize; 3],
    b: [f64; 9],
    same: bool,
)
    requires sized { Sized nodes.now.count out.old nodes.now.marks.now }
    requires all_below { AllBelow nodes.now.count (triple s) × AllBelow nodes.now.count (triple t) }
    ensures { out.new ≡ renewing (marked nodes.now.marks.now) nodes.now.count out.old (with_transposed same (block_entries (triple s) (triple t) b 0)) }
{
    scatter_triangle_block(out, nodes, s, t, b, false);
    if !same {
        scatter_triangle_block(out, nodes, s, t, b, true);
    }
}

// One of the nodes of a panel is marked.
pub fn touches(marks: &[bool], s: [usize; 3]) -> bool
    requires { AllBelow (length marks.now) (triple s) }
    ensures { result ≡ any_of (marked marks.now) (triple s) }
{
    marks[s[0]] | (marks[s[1]] | marks[s[2]])
}

// For each number below the set's count the first of the set from it up, the count if there is none.
pub fn link_marked(set: &MarkSet, links: &mut [usize])
    requires { (set.now.count ≤ length set.now.marks.now) × (set.now.count ≤ length links.old) }
    ensures { LinksNext 0 (marked set.now.marks.now) set.now.count links.new }
{
    let mut first = set.count;
    for k in (0..set.count).rev() {
        if set.marks[k] {
            first = k;
        }
        links[k] = first;
    }
}

impl LinkedSet<'_> {
    // The first column from `col` up that is named in the row, the count if there is none.
    pub fn next_named(&self, row: usize, col: usize) -> usize
        requires n_in_bounds { (self.now.set.count ≤ length self.now.set.marks.now) × (self.now.set.count ≤ length self.now.links.now) }
        requires row_lt_n { (col < self.now.set.count → row < self.now.set.count)
            × LinksNext 0 (marked self.now.set.marks.now) self.now.set.count self.now.links.now }
        ensures { result ≡ next_from (named (marked self.now.set.marks.now) row) col (self.now.set.count - col) }
    {
        if self.set.count <= col {
            return col;
        }
        if self.set.marks[row] {
            return col;
        }
        self.links[col]
    }
}

// The named cells of a row become +0. No `for`: the step is to the next named column, no range has it.
fn clear_row(out: &mut [f64], nodes: &LinkedSet, row: usize)
    requires sized { Sized nodes.now.set.count out.old nodes.now.set.marks.now }
    requires row_lt_n { (row < nodes.now.set.count) × (nodes.now.set.count ≤ length nodes.now.links.now)
        × LinksNext 0 (marked nodes.now.set.marks.now) nodes.now.set.count nodes.now.links.now }
    ensures { let n = nodes.now.set.count in
        out.new ≡ run out.old (row * n) n (renewed_cell (marked nodes.now.set.marks.now) (λ a b. plus_zero) n out.old row) n }
{
    let n = nodes.set.count;
    let base = row * n;
    let mut col = nodes.next_named(row, 0);
    while col < n {
        out[base + col] = 0.0;
        col = nodes.next_named(row, col + 1);
    }
}

// Named cells become +0.
pub fn clear_named(out: &mut [f64], nodes: &MarkSet)
    requires { Sized nodes.now.count out.old nodes.now.marks.now }
    ensures { out.new ≡ renewed (marked nodes.now.marks.now) (λ a b. plus_zero) nodes.now.count out.old }
{
    let mut links: [usize; mesh::MAX_NODES] = [0; mesh::MAX_NODES];
    link_marked(nodes, &mut links);
    let linked = LinkedSet {
        set: *nodes,
        links: &links,
    };
    for row in 0..nodes.count {
        clear_row(out, &linked, row);
    }
}

// The named cells (b, a) of row b with a below b become copies of (a, b). No twin of `clear_row`: the scan ends
// at the diagonal, and what is written is read from the matrix. No `for`: the step is to the next named column.
fn copy_row_below(out: &mut [f64], nodes: &LinkedSet, b: usize)
    requires sized { Sized nodes.now.set.count out.old nodes.now.set.marks.now }
    requires b_lt_n { (b < nodes.now.set.count) × (nodes.now.set.count ≤ length nodes.now.links.now)
        × LinksNext 0 (marked nodes.now.set.marks.now) nodes.now.set.count nodes.now.links.now }
    ensures { let n = nodes.now.set.count in
        out.new ≡ run out.old (b * n) n (renewed_cell (marked nodes.now.set.marks.now) (mirrored (cells_of n out.old)) n out.old b) n }
{
    let n = nodes.set.count;
    let mut a = nodes.next_named(b, 0);
    while a < b {
        out[b * n + a] = out[a * n + b];
        a = nodes.next_named(b, a + 1);
    }
}

// Named cells below the diagonal become copies of those above. One function with `clear_named` over what is done
// in a row would be no plainer: its contract needs the row's as a premise, and the two rows' loops stay.
pub fn copy_below(out: &mut [f64], nodes: &MarkSet)
    requires { Sized nodes.now.count out.old nodes.now.marks.now }
    ensures { out.new ≡ copied_below (marked nodes.now.marks.now) nodes.now.count out.old }
{
    let mut links: [usize; mesh::MAX_NODES] = [0; mesh::MAX_NODES];
    link_marked(nodes, &mut links);
    let linked = LinkedSet {
        set: *nodes,
        links: &links,
    };
    for row in 0..nodes.count {
        copy_row_below(out, &linked, row);
    }
}

// Which panels have a marked node.
pub fn flag_panels(panels: &PanelColumns, marks: &[bool], flags: &mut [bool])
    requires panel_columns_alike { PanelColumnsAlike (viewed_panels panels.now) }
    requires indices_below { IndicesBelow (length marks.now) (viewed_panels panels.now) }
    requires t0_in_bounds { length panels.now.t0.now ≤ length flags.old }
    ensures { Flagged (length panels.now.t0.now) (viewed_panels panels.now) marks.now flags.new }
{
    for i in 0..panels.t0.len() {
        flags[i] = touches(marks, panels.triangle_indices(i));
    }
}
