// From bytes to a scene and its laid plan.
ghost use Rattle.std.specs.Prelude.{◌≡◌, Ok, Err};
ghost use Rattle.scene.specs.Layout.{scene_of};
ghost use Rattle.laying.specs.Laid.{Laid};
ghost use Rattle.cabinet.specs.Prepared.{Unprepared};

use laying::laying::{LaidCounts, lay};
use plan::records::{CopyRecord, Edge};
use refusals::refusal::Refusal;
use scene::view::SceneView;

// Takes the scene and lays its plan into the memory handed in. A refusal leaves all that was handed in as it was.
pub fn prepare<'a>(
    scene: &mut SceneView<'a>,
    bytes: &'a [u8],
    copies: &mut [CopyRecord],
    edges: &mut [Edge],
) -> Result<LaidCounts, Refusal>
    ensures { elim result [
      | Ok n ↦ (scene.new.bytes ≡ bytes.entry)
          × Laid (scene_of bytes.now) n
          copies.old copies.new edges.old edges.new
      | Err f ↦ Unprepared bytes.now f scene.old scene.new
          copies.old copies.new edges.old edges.new
    ] }
{
    let mut taken = SceneView::new();
    taken.take(bytes)?;
    let counts = lay(&taken, copies, edges)?;
    *scene = taken;
    Ok(counts)
}
