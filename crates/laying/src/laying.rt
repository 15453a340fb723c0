// Laying the plan of a scene into memory handed in.
ghost use Rattle.std.specs.Prelude.{◌≡◌, true, Ok, Err};
ghost use Rattle.plan.specs.Sound.{sound_plan};
ghost use Rattle.forest.specs.Forest.{laid_copies, laid_edges};
ghost use Rattle.forest.specs.Meaning.{StarForest};
ghost use Rattle.scene.specs.Layout.{scene_of};
ghost use Rattle.laying.specs.Laid.{Laid, Unlaid};

use crate::fault::LayFault;
use crate::tables::Tables;
use plan::records::{CopyRecord, Edge};
use scene::view::SceneView;

// How many records a plan has.
#[derive(Clone, Copy, PartialEq, Eq)]
pub struct LaidCounts {
    pub copies: usize,
    pub edges: usize,
}

// Writes the scene's copies and edges at the start of the memory handed in, and nothing past them.
// They are a star forest, and a plan view takes them.
// Nothing is written before both memories are known to be long enough.
#[tactic(auto, using(crate::proofs::Stands::view_forest, crate::proofs::Stands::view_plan))]
pub fn lay(
    scene: &SceneView,
    copies: &mut [CopyRecord],
    edges: &mut [Edge],
) -> Result<LaidCounts, LayFault>
    ensures exact { elim result [
      | Ok n ↦ Laid (scene_of scene.now.bytes.now) n
          copies.old copies.new edges.old edges.new
      | Err f ↦ Unlaid (scene_of scene.now.bytes.now) f
          copies.old copies.new edges.old edges.new
    ] }
    ensures forest { StarForest (scene_of scene.now.bytes.now) }
    ensures rules { sound_plan (scene_of scene.now.bytes.now).boards
        (laid_copies (scene_of scene.now.bytes.now))
        (laid_edges (scene_of scene.now.bytes.now)) ≡ true }
{
    let mut tables = Tables::empty();
    let counts = tables.fill(scene);
    if copies.len() < counts.copies {
        return Err(LayFault::Copies {
            needed: counts.copies,
        });
    }
    if edges.len() < counts.edges {
        return Err(LayFault::Edges {
            needed: counts.edges,
        });
    }
    tables.write_copies(copies);
    tables.write_edges(edges);
    Ok(counts)
}
