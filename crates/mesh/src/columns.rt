// The six lent columns of a mesh: the coordinates x, y, z of the nodes, and for each panel the nodes
// t0, t1, t2 of its corners.
ghost use Rattle.std.specs.Prelude.{◌≡◌, ◌<◌, length};
ghost use Rattle.mesh.specs.Conditions.{NodeColumnsAlike, PanelColumnsAlike, Below};
ghost use Rattle.mesh.specs.Mesh as Spec;
ghost use Rattle.mesh.specs.Columns.{viewed, viewed_nodes, viewed_panels};

#[derive(Clone, Copy)]
pub struct NodeColumns<'a> {
    pub x: &'a [f64],
    pub y: &'a [f64],
    pub z: &'a [f64],
}

#[derive(Clone, Copy)]
pub struct PanelColumns<'a> {
    pub t0: &'a [usize],
    pub t1: &'a [usize],
    pub t2: &'a [usize],
}

#[derive(Clone, Copy)]
pub struct TriangleMeshView<'a> {
    pub nodes: NodeColumns<'a>,
    pub panels: PanelColumns<'a>,
}

impl NodeColumns<'_> {
    // The coordinates of a node.
    pub fn node(&self, k: usize) -> [f64; 3]
        requires { (k < length self.now.x.now) × (k < length self.now.y.now) × (k < length self.now.z.now) }
        ensures { result ≡ Spec.node (viewed_nodes self.now) k }
    {
        [self.x[k], self.y[k], self.z[k]]
    }
}

impl PanelColumns<'_> {
    // The nodes of panel i.
    pub fn triangle_indices(&self, i: usize) -> [usize; 3]
        requires { (i < length self.now.t0.now) × (i < length self.now.t1.now) × (i < length self.now.t2.now) }
        ensures { result ≡ Spec.triangle_indices (viewed_panels self.now) i }
    {
        [self.t0[i], self.t1[i], self.t2[i]]
    }
}

impl TriangleMeshView<'_> {
    pub fn nnode(&self) -> usize
        ensures { result ≡ Spec.nnode (viewed self.now) }
    {
        self.nodes.x.len()
    }

    pub fn ntri(&self) -> usize
        ensures { result ≡ Spec.ntri (viewed self.now) }
    {
        self.panels.t0.len()
    }

    // The corners of panel i. What it asks stands here and in no type: a caller need only know of this panel's indices.
    pub fn triangle_nodes(&self, i: usize) -> [[f64; 3]; 3]
        requires node_columns_alike { NodeColumnsAlike (viewed self.now) }
        requires panel_columns_alike { PanelColumnsAlike (viewed self.now) }
        requires i_in_bounds { (i < length self.now.panels.t0.now) × Below (viewed self.now) i }
        ensures { result ≡ Spec.triangle_nodes (viewed self.now) i }
    {
        let [a, b, c] = self.panels.triangle_indices(i);
        [self.nodes.node(a), self.nodes.node(b), self.nodes.node(c)]
    }
}
