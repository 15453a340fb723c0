// A turn of one board.
ghost use Rattle.std.specs.Prelude.{◌≡◌, ◌≤◌, Some, None, Ok, Err, IfOk, OnOk, OnErr};
ghost use Rattle.medium.specs.Calls.{Calls, rules_of};
ghost use Rattle.protocol.specs.Runs.{moment, no_tally, seen};
ghost use Rattle.plan.specs.Links.{shape};
ghost use Rattle.turns.specs.Called.{turn_calls};
ghost use Rattle.turns.specs.Taken.{taking_fault, TurnTaken, OwnCopiesAlone};

use crate::board::BoardView;
use element::element::Element;
use medium::medium::Medium;
use plan::view::PlanView;
use protocol::fault::RunFault;
use protocol::room::check_room;
use protocol::table::LinkTable;
use protocol::tally::TurnCounts;

// The board, if there is such a one, and room for the plan's copies.
fn check_turn<'a>(
    plan: &'a PlanView<'a>,
    room: usize,
    board: usize,
) -> Result<BoardView<'a>, RunFault>
    ensures { elim result [
      | Ok b ↦ (taking_fault plan.now.boards plan.now.copies.now room board ≡ None)
          × (b.plan.now ≡ plan.now) × (b.board ≡ board)
      | Err f ↦ taking_fault plan.now.boards plan.now.copies.now room board ≡ Some f
    ] }
{
    if board >= plan.boards() {
        return Err(RunFault::Board { given: board });
    }
    check_room(plan, room)?;
    Ok(BoardView { plan, board })
}

// Board `board` takes all that waits for it, then puts what is due.
// A run's limit of turns is its caller's to keep: outside of a run no turn is counted.
pub fn take_turn<E: Element, D: Medium>(
    plan: &PlanView,
    table: &mut LinkTable,
    medium: &mut D,
    copies: &mut [E],
    board: usize,
) -> Result<TurnCounts, RunFault>
    ensures exact { TurnTaken E.Element.algebra plan.now.boards
        plan.now.copies.now plan.now.edges.now board
        (moment no_tally table.old.links copies.old (D.Medium.lanes medium.old))
        (moment no_tally table.new.links copies.new (D.Medium.lanes medium.new)) result }
    ensures alone { OwnCopiesAlone E.Element.algebra plan.now.boards
        plan.now.copies.now board (D.Medium.lanes medium.old) copies.old
        copies.new }
    ensures still { OnErr result (medium.new ≡ medium.old) }
    ensures calls { OnOk result (Calls (rules_of D.lanes D.takes D.puts) medium.old
        (turn_calls E.algebra (shape plan.now.boards plan.now.edges.now)
        (seen E.algebra (moment no_tally table.old.links copies.old (D.lanes medium.old)))
        (seen E.algebra (moment no_tally table.new.links copies.new (D.lanes medium.new)))
        board) medium.new) }
    ensures few { IfOk result (λ n. (n.lost ≤ n.puts) × (n.puts ≤ 8) × (n.accepted ≤ 512)) }
{
    let own = check_turn(plan, copies.len(), board)?;
    let haul = own.receive(table, medium, copies);
    let puts = own.send(table, medium, copies, &haul.got);
    Ok(TurnCounts {
        taken: haul.taken,
        accepted: haul.accepted,
        puts: puts.made,
        lost: puts.lost,
    })
}
