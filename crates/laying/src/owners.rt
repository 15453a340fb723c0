// The board that each vertex belongs to.
ghost use Rattle.std.specs.Prelude.{◌≡◌, ℕ, ◌<◌, None, slice_index_or};
ghost use Rattle.scene.specs.Views.{viewed};
ghost use Rattle.forest.specs.Forest.{owns_cell_on};
ghost use Rattle.laying.specs.BoardSets.{TellsAll};
ghost use Rattle.laying.specs.Tables.{owning};

use crate::board_set::BoardSet;
use scene::view::SceneView;

// For each vertex the lowest board that owns a cell on it, if one does.
pub(crate) fn owners(scene: &SceneView, own: &[BoardSet; 1024]) -> [Option<u8>; 1024]
    requires { TellsAll own.now 1024 (owns_cell_on (viewed scene.now)) }
    ensures { (v : ℕ) → v < 1024 → slice_index_or result v None ≡ owning (viewed scene.now) v }
{
    let mut owners = [None; 1024];
    for (v, owner) in owners.iter_mut().enumerate() {
        *owner = own[v].lowest();
    }
    owners
}
