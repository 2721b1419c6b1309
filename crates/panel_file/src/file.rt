// A panel file whose length was tested: its bytes and the counts that it names.
ghost use Rattle.std.specs.Prelude.{◌≡◌, ◌^◌, ◌≤◌, ◌<◌, length};
ghost use Rattle.lists.specs.Filling.{tabulate};
ghost use Rattle.mesh.specs.Mesh as Mesh;
ghost use Rattle.mesh.specs.Conditions.{NoneMissing};
ghost use Rattle.panel_file.specs.PanelFile as Spec;
ghost use Rattle.panel_file.specs.PanelFile.{Holds, IndicesBelow};

use crate::{HEADER, from_bits, little_endian};

// Nodes and panels stand within the bytes.
#[derive(Clone, Copy)]
pub struct PanelFile<'a> {
    pub bytes: &'a [u8],
    pub nodes: usize,
    pub panels: usize,
    ghost holds: { Holds nodes bytes.now },
    ghost counted: { panels ≡ Spec.panel_count bytes.now },
}

impl PanelFile<'_> {
    // Coordinate 0, 1 or 2 of node k.
    #[tactic(auto, unfolding(crate::specs::PanelFile::coordinate))]
    fn coordinate(&self, axis: usize, k: usize) -> f64
        requires { (axis ≤ 2) × (k < self.now.nodes) }
        ensures { result ≡ Spec.coordinate self.now.bytes.now axis k }
    {
        from_bits(little_endian(self.bytes, HEADER + (k * 24 + axis * 8), 8))
    }

    // Corner 0, 1 or 2 of panel i.
    #[tactic(auto, unfolding(crate::specs::PanelFile::index))]
    fn index(&self, corner: usize, i: usize) -> usize
        requires { (corner ≤ 2) × (i < self.now.panels) }
        ensures value { result ≡ Spec.index self.now.bytes.now self.now.nodes corner i }
        ensures upper_bound { result < 2 ^ 16 }
    {
        let place = HEADER + (self.nodes * 24 + (i * 6 + corner * 2));
        little_endian(self.bytes, place, 2) as usize
    }

    // The coordinates of node k.
    fn node(&self, k: usize) -> [f64; 3]
        requires { k < self.now.nodes }
        ensures { result ≡ Mesh.node (Spec.decode self.now.bytes.now) k }
    {
        [
            self.coordinate(0, k),
            self.coordinate(1, k),
            self.coordinate(2, k),
        ]
    }

    // The nodes of panel i.
    pub fn triangle_indices(&self, i: usize) -> [usize; 3]
        requires { i < self.now.panels }
        ensures { result ≡ Mesh.triangle_indices (Spec.decode self.now.bytes.now) i }
    {
        [self.index(0, i), self.index(1, i), self.index(2, i)]
    }

    // The corners of panel i.
    pub fn triangle_nodes(&self, i: usize) -> [[f64; 3]; 3]
        requires { (i < self.now.panels) × IndicesBelow self.now.bytes.now self.now.nodes i }
        ensures { result ≡ Mesh.triangle_nodes (Spec.decode self.now.bytes.now) i }
    {
        [
            self.node(self.index(0, i)),
            self.node(self.index(1, i)),
            self.node(self.index(2, i)),
        ]
    }

    // 3, over all panels
    pub(crate) fn some_misses_node(&self) -> bool
        ensures { result ≡ Mesh.some_misses_node (Spec.decode self.now.bytes.now) }
    {
        for i in 0..self.panels {
            if mesh::misses_node(self.nodes, self.triangle_indices(i)) {
                return true;
            }
        }
        false
    }

    // 4, over all panels
    pub(crate) fn some_zero_area(&self) -> bool
        requires { NoneMissing (Spec.decode self.now.bytes.now) }
        ensures { result ≡ Mesh.some_zero_area (Spec.decode self.now.bytes.now) }
    {
        for i in 0..self.panels {
            if mesh::is_zero_area(self.triangle_nodes(i)) {
                return true;
            }
        }
        false
    }

    // Coordinate 0, 1 or 2 of every node.
    pub(crate) fn fill_coordinates(&self, axis: usize, out: &mut [f64])
        requires { (axis ≤ 2) × (length out.old ≡ self.now.nodes) }
        ensures { out.new ≡ tabulate (Spec.node_count self.now.bytes.now) (Spec.coordinate self.now.bytes.now axis) }
    {
        for (k, value) in out.iter_mut().enumerate() {
            *value = self.coordinate(axis, k);
        }
    }

    // Corner 0, 1 or 2 of every panel.
    pub(crate) fn fill_indices(&self, corner: usize, out: &mut [usize])
        requires { (corner ≤ 2) × (length out.old ≡ self.now.panels) }
        ensures { out.new ≡ tabulate (Spec.panel_count self.now.bytes.now) (Spec.index self.now.bytes.now (Spec.node_count self.now.bytes.now) corner) }
    {
        for (i, node) in out.iter_mut().enumerate() {
            *node = self.index(corner, i);
        }
    }
}
