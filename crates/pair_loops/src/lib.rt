// The loops over pairs of panels: every addition that names a marked node, in program order. They
// serve the assembly, with every node marked, and a move, with the ring of the moved node marked.
#![tactic(auto)]

ghost use Rattle.std.specs.Prelude.{◌≡◌, ◌<◌, ◌≤◌};
ghost use Rattle.mesh.specs.Mesh.{ntri, triangle_nodes};
ghost use Rattle.mesh.specs.Columns.{viewed};
ghost use Rattle.coupling.specs.Block.{mutual_inductance_block};
ghost use Rattle.pair.specs.Pair.{panel_numbers, source_numbers};
ghost use Rattle.cached_panels.specs.Cache.{AllCached};
ghost use Rattle.pair_loops.specs.Additions.{pair_entries, targets_from, source_entries, entries, added_to};
ghost use Rattle.pair_loops.specs.Ready.{Ready, Scanned};

use cached_panels::CachedNumbers;
use mesh::columns::TriangleMeshView;
use pair::Source;
use scatter::{LinkedSet, MarkSet};
use tri::quadrature::QuadratureKind;

// What the additions are worked out from: the rule, the mesh, the marks of its nodes, its flagged
// panels and the panels' own numbers.
#[derive(Clone, Copy)]
struct Pairs<'a> {
    kind: QuadratureKind,
    mesh: TriangleMeshView<'a>,
    marks: &'a [bool],
    flagged: LinkedSet<'a>,
    cache: &'a [CachedNumbers],
}

impl Pairs<'_> {
    // The additions of panels i and j, where the source's numbers are those of panel i.
    fn add_pair(&self, out: &mut [f64], source: Source, i: usize, j: usize)
        requires ready { Ready (viewed self.now.mesh) out.old self.now.marks.now }
        requires all_cached { AllCached (viewed self.now.mesh) self.now.cache.now }
        requires i_in_bounds { (i < ntri (viewed self.now.mesh)) × (j < ntri (viewed self.now.mesh)) }
        requires source_value { source ≡ source_numbers self.now.kind (panel_numbers (triangle_nodes (viewed self.now.mesh) i)) }
        ensures { out.new ≡ added_to self.now.marks.now (viewed self.now.mesh) out.old (λ m. pair_entries (mutual_inductance_block self.now.kind) m i j) }
    {
        let s = self.mesh.panels.triangle_indices(i);
        let t = self.mesh.panels.triangle_indices(j);
        let target = cached_panels::cached_panel(&self.mesh, self.cache, j);
        let b = pair::pair_block(self.kind, source, target);
        let nodes = MarkSet {
            count: self.mesh.nnode(),
            marks: self.marks,
        };
        scatter::scatter_pair(out, &nodes, s, t, b, i == j);
    }

    // The additions of source i against the targets from `first` up. A pair without a marked node adds
    // nothing: the loop goes from one pair with a flagged panel to the next, which no range does.
    fn add_targets(&self, out: &mut [f64], source: Source, i: usize, first: usize)
        requires ready { Ready (viewed self.now.mesh) out.old self.now.marks.now }
        requires scanned { Scanned (viewed self.now.mesh) self.now.marks.now self.now.flagged }
        requires all_cached { AllCached (viewed self.now.mesh) self.now.cache.now }
        requires i_le_first { i ≤ first }
        requires source_value { source ≡ source_numbers self.now.kind (panel_numbers (triangle_nodes (viewed self.now.mesh) i)) }
        ensures { out.new ≡ added_to self.now.marks.now (viewed self.now.mesh) out.old (λ m. targets_from (mutual_inductance_block self.now.kind) m i first) }
    {
        // A `while`: each step is to the next flagged target, which no range gives.
        let mut j = first;
        while j < self.mesh.ntri() {
            self.add_pair(out, source, i, j);
            j = self.flagged.next_named(i, j + 1);
        }
    }

    // The same, and the source's numbers are worked out, if any pair from `first` up is to be added.
    fn add_source(&self, out: &mut [f64], i: usize, first: usize)
        requires ready { Ready (viewed self.now.mesh) out.old self.now.marks.now }
        requires scanned { Scanned (viewed self.now.mesh) self.now.marks.now self.now.flagged }
        requires all_cached { AllCached (viewed self.now.mesh) self.now.cache.now }
        requires i_le_first { i ≤ first }
        ensures { out.new ≡ added_to self.now.marks.now (viewed self.now.mesh) out.old (λ m. targets_from (mutual_inductance_block self.now.kind) m i first) }
    {
        let j = self.flagged.next_named(i, first);
        if j < self.mesh.ntri() {
            let panel = cached_panels::cached_panel(&self.mesh, self.cache, i);
            let source = pair::source_numbers(self.kind, panel);
            self.add_targets(out, source, i, j);
        }
    }

    // The additions of the first `count` sources, each against the targets from itself up.
    fn add_sources(&self, out: &mut [f64], count: usize)
        requires ready { Ready (viewed self.now.mesh) out.old self.now.marks.now }
        requires scanned { Scanned (viewed self.now.mesh) self.now.marks.now self.now.flagged }
        requires all_cached { AllCached (viewed self.now.mesh) self.now.cache.now }
        ensures { out.new ≡ added_to self.now.marks.now (viewed self.now.mesh) out.old (λ m. source_entries (mutual_inductance_block self.now.kind) m 0 count) }
    {
        for i in 0..count {
            self.add_source(out, i, i);
        }
    }
}

// Every addition. Panels' numbers are worked out, once, if any panel is flagged.
pub fn add_all(
    kind: QuadratureKind,
    mesh: &TriangleMeshView,
    marks: &[bool],
    flagged: &LinkedSet,
    out: &mut [f64],
)
    requires ready { Ready (viewed mesh.now) out.old marks.now }
    requires scanned { Scanned (viewed mesh.now) marks.now flagged.now }
    ensures { out.new ≡ added_to marks.now (viewed mesh.now) out.old (λ m. entries (mutual_inductance_block kind) m) }
{
    let sources = mesh.ntri();
    if flagged.next_named(0, 0) < mesh.ntri() {
        let mut cache = cached_panels::room();
        cached_panels::cache_panels(mesh, &mut cache);
        let pairs = Pairs {
            kind,
            mesh: *mesh,
            marks,
            flagged: *flagged,
            cache: &cache,
        };
        pairs.add_sources(out, sources);
    }
}
