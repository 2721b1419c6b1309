// Panels' own numbers, worked out once and cached in one array.
#![tactic(auto)]

ghost use Rattle.std.specs.Prelude.{◌≡◌, ◌<◌, ◌≤◌, length};
ghost use Rattle.mesh.specs.Mesh.{ntri, triangle_nodes};
ghost use Rattle.mesh.specs.Columns.{viewed};
ghost use Rattle.mesh.specs.Conditions.{NodeColumnsAlike, PanelColumnsAlike, Below, NoneMissing};
ghost use Rattle.pair.specs.Pair.{panel_numbers};
ghost use Rattle.cached_panels.specs.Cache as Spec;

use mesh::columns::TriangleMeshView;
use pair::Panel;
use panel_distance::distance::Bounds;

// A panel's own numbers besides its corners, which stand in the mesh's columns.
#[derive(Clone, Copy)]
pub struct CachedNumbers {
    pub area: f64,
    pub edge: f64,
    pub bounds: Bounds,
    pub densities: [[f64; 3]; 3],
}

// Room for the numbers of as many panels as there may be. A function of its own: who works with the
// array then knows its length and need not compute it from the array.
#[tactic(auto, unfolding(crate::specs::Cache::room))]
pub fn room() -> [CachedNumbers; mesh::MAX_PANELS]
    ensures { result ≡ Spec.room }
{
    let unwritten = CachedNumbers {
        area: 0.0,
        edge: 0.0,
        bounds: Bounds {
            lo: [0.0; 3],
            hi: [0.0; 3],
        },
        densities: [[0.0; 3]; 3],
    };
    [unwritten; mesh::MAX_PANELS]
}

// The numbers of every panel.
pub fn cache_panels(mesh: &TriangleMeshView, cache: &mut [CachedNumbers])
    requires node_columns_alike { NodeColumnsAlike (viewed mesh.now) }
    requires panel_columns_alike { PanelColumnsAlike (viewed mesh.now) }
    requires none_missing { NoneMissing (viewed mesh.now) }
    requires room { ntri (viewed mesh.now) ≤ length cache.old }
    ensures { Spec.Cached (ntri (viewed mesh.now)) (viewed mesh.now) cache.new }
{
    for j in 0..mesh.ntri() {
        let Panel {
            area,
            edge,
            bounds,
            densities,
            ..
        } = pair::panel_numbers(mesh.triangle_nodes(j));
        cache[j] = CachedNumbers {
            area,
            edge,
            bounds,
            densities,
        };
    }
}

// The numbers of panel j: the corners from the columns, the others as they were cached.
pub fn cached_panel(mesh: &TriangleMeshView, cache: &[CachedNumbers], j: usize) -> Panel
    requires node_columns_alike { NodeColumnsAlike (viewed mesh.now) }
    requires panel_columns_alike { PanelColumnsAlike (viewed mesh.now) }
    requires j_in_bounds { (j < ntri (viewed mesh.now)) × Below (viewed mesh.now) j }
    requires all_cached { Spec.AllCached (viewed mesh.now) cache.now }
    ensures { result ≡ panel_numbers (triangle_nodes (viewed mesh.now) j) }
{
    let corners = mesh.triangle_nodes(j);
    let CachedNumbers {
        area,
        edge,
        bounds,
        densities,
    } = cache[j];
    Panel {
        corners,
        area,
        edge,
        bounds,
        densities,
    }
}
