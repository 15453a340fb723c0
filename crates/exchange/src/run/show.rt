// What an ended run holds.
ghost use Rattle.std.specs.Prelude.{◌≡◌, length, Some, None, IfErr, IfOk, OnOk};
ghost use Rattle.plan.specs.Starts.{values_on};
ghost use Rattle.exchange.specs.Calls.{show_fault};

use super::Ended;
use plan::view::PlanView;
use protocol::fault::RunFault;
use protocol::room::check_room;

// Refuses short memory, then a board that there is not.
pub(super) fn check_show(plan: &PlanView, room: usize, board: usize) -> Result<(), RunFault>
    ensures ok { OnOk result (show_fault plan.now.boards plan.now.copies.now room board ≡ None) }
    ensures err { IfErr result (λ f. show_fault plan.now.boards plan.now.copies.now room board ≡ Some f) }
{
    check_room(plan, room)?;
    if board >= plan.boards() {
        return Err(RunFault::Board { given: board });
    }
    Ok(())
}

impl Ended {
    // Board `board`'s copies, as a part of the memory.
    pub fn show<'a, E>(
        &self,
        plan: &PlanView,
        copies: &'a [E],
        board: usize,
    ) -> Result<&'a [E], RunFault>
        ensures ok { IfOk result (λ s. (show_fault plan.now.boards plan.now.copies.now
            (length copies.now) board ≡ None)
            × (s.now ≡ values_on plan.now.copies.now copies.now board)) }
        ensures err { IfErr result (λ f. show_fault plan.now.boards plan.now.copies.now
            (length copies.now) board ≡ Some f) }
    {
        check_show(plan, copies.len(), board)?;
        let part = plan.board_part(board);
        let from = part.from;
        let end = from + part.count;
        Ok(&copies[from..end])
    }
}
