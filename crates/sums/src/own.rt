// Loading own sums, and what may be against it.
ghost use Rattle.std.specs.Prelude.{◌≡◌, Some, None, IfErr, OnOk};
ghost use Rattle.scene.specs.Views.{viewed};
ghost use Rattle.sums.specs.Sums.{SumsAnswers, load_fault};

use crate::sums::set_own_sums;
use element::element::Element;
use element::kinds::is_kind_of;
use plan::view::PlanView;
use protocol::fault::RunFault;
use protocol::room::check_room;
use scene::view::SceneView;

// Refuses elements of another kind than the scene's, then memory too short for the plan's copies.
pub fn check_load<E: Element>(
    scene: &SceneView,
    plan: &PlanView,
    copies: &[E],
) -> Result<(), RunFault>
    ensures ok { OnOk result (load_fault E.Element.algebra (viewed scene.now)
        plan.now.copies.now copies.now ≡ None) }
    ensures err { IfErr result (λ f. load_fault E.Element.algebra (viewed scene.now)
        plan.now.copies.now copies.now ≡ Some f) }
{
    let kind = u8::from(scene.kind());
    if !is_kind_of::<E>(kind) {
        return Err(RunFault::Kind { kind });
    }
    check_room(plan, copies.len())
}

// Sets each copy of the plan to its board's own sum, and answers how many they are; memory past them stays as it was.
pub fn load_own_sums<E: Element>(
    scene: &SceneView,
    plan: &PlanView,
    copies: &mut [E],
) -> Result<usize, RunFault>
    ensures { SumsAnswers E.Element.algebra (viewed scene.now) plan.now.copies.now
        copies.old copies.new result }
{
    check_load(scene, plan, copies)?;
    set_own_sums(scene, plan, copies);
    Ok(plan.copies().len())
}
