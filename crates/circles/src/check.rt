// What may be against a circle, before its first turn.
ghost use Rattle.std.specs.Prelude.{◌≡◌, Some, None, IfErr, OnOk};
ghost use Rattle.circles.specs.Circles.{circle_fault};

use exchange::run::Turning;
use plan::view::PlanView;
use protocol::fault::{RunFault, TURN_LIMIT};
use protocol::room::check_room;

// Refuses memory too short for the plan's copies, then too few turns left for all boards.
pub(crate) fn check_circle(turning: &Turning, plan: &PlanView, room: usize) -> Result<(), RunFault>
    ensures ok { OnOk result
        (circle_fault plan.now.boards plan.now.copies.now room turning.now.tally.turns ≡ None) }
    ensures err { IfErr result (λ f.
        circle_fault plan.now.boards plan.now.copies.now room turning.now.tally.turns ≡ Some f) }
{
    check_room(plan, room)?;
    if TURN_LIMIT - turning.tally().turns < plan.boards() {
        return Err(RunFault::Turns);
    }
    Ok(())
}
