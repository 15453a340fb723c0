// Memory for the copies of a plan.
ghost use Rattle.std.specs.Prelude.{◌≡◌, ◌<◌, ◌≤◌, length, OnOk, IfErr};

use crate::fault::RunFault;
use plan::view::PlanView;

// Refuses memory too short for the plan's copies.
pub fn check_room(plan: &PlanView, room: usize) -> Result<(), RunFault>
    ensures ok { OnOk result (length plan.now.copies.now ≤ room) }
    ensures short { IfErr result (λ _. room < length plan.now.copies.now) }
    ensures err { IfErr result (λ f. f ≡ RunFault.Short (length plan.now.copies.now)) }
{
    let needed = plan.copies().len();
    if room < needed {
        return Err(RunFault::Short { needed });
    }
    Ok(())
}
