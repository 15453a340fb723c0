// Loading the copies with their boards' own sums.
ghost use Rattle.scene.specs.Views.{viewed};
ghost use Rattle.exchange.specs.Loading.{LoadAnswers};

use super::{Linear, Loaded};
use element::element::Element;
use plan::view::PlanView;
use protocol::fault::RunFault;
use scene::view::SceneView;
use sums::own::load_own_sums;

// Sets each copy of the plan to its board's own sum; memory past them stays as it was.
pub fn load<E: Element>(
    scene: &SceneView,
    plan: &PlanView,
    copies: &mut [E],
) -> Result<Loaded, RunFault>
    ensures { LoadAnswers E.Element.algebra (viewed scene.now)
        plan.now.copies.now copies.old copies.new result }
{
    let set = load_own_sums(scene, plan, copies)?;
    Ok(Loaded {
        copies: set,
        linear: Linear,
    })
}
