// The corners of all cells, read once.
ghost use Rattle.std.specs.Prelude.{◌≡◌, ℕ, ◌<◌, length, slice_index_or};
ghost use Rattle.scene.specs.Views.{viewed};
ghost use Rattle.laying.specs.Seen.{cell_of};
ghost use Rattle.laying.specs.Tables.{row};

use scene::view::SceneView;

// The vertex at corner number k of cell number c.
fn vertex(scene: &SceneView, c: usize, k: usize) -> u16
    requires cell { c < length (viewed scene.now).cells }
    requires corner { k < 3 }
    ensures { result ≡ slice_index_or (cell_of scene.now c).corners k 0 }
{
    let Some(v) = scene.corner(c, k) else {
        unreachable!()
    };
    v as u16
}

// The vertices of cell number c.
fn cell_corners(scene: &SceneView, c: usize) -> [u16; 3]
    requires { c < length (viewed scene.now).cells }
    ensures { result ≡ (cell_of scene.now c).corners }
{
    [
        vertex(scene, c, 0),
        vertex(scene, c, 1),
        vertex(scene, c, 2),
    ]
}

// For each cell its vertices.
pub(crate) fn corners(scene: &SceneView) -> [[u16; 3]; 1024]
    ensures { (c : ℕ) → c < length (viewed scene.now).cells → row result c ≡ (cell_of scene.now c).corners }
{
    let mut corners = [[0; 3]; 1024];
    for c in 0..scene.cells() {
        corners[c] = cell_corners(scene, c);
    }
    corners
}
