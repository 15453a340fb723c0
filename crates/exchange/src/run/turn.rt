// A turn of one board, counted in the run's tally.
ghost use Rattle.std.specs.Prelude.{◌≡◌, ◌<◌, ◌≤◌, ◌&&◌, nat_le, nat_lt, OnOk, OnErr};
ghost use Rattle.medium.specs.Calls.{Calls, rules_of};
ghost use Rattle.scene.specs.Cells.{Scene};
ghost use Rattle.protocol.specs.Faults.{turn_limit};
ghost use Rattle.protocol.specs.Runs.{moment, seen, tallied};
ghost use Rattle.plan.specs.Links.{shape};
ghost use Rattle.turns.specs.Called.{turn_calls};
ghost use Rattle.turns.specs.Taken.{OwnCopiesAlone};
ghost use Rattle.exchange.specs.Calls.{TurnAnswers};
ghost use Rattle.exchange.specs.Going.{GoesOn, LaidPlan};

use super::Turning;
use element::element::Element;
use medium::medium::Medium;
use plan::view::PlanView;
use protocol::fault::{RunFault, TURN_LIMIT};
use protocol::table::LinkTable;
use protocol::tally::{Tally, TurnCounts};
use turns::turn::take_turn;

impl Turning {
    // Whether there is such a board, but no turn left for it.
    fn is_over(&self, plan: &PlanView, board: usize) -> bool
        ensures { result
            ≡ (nat_lt board plan.now.boards && nat_le turn_limit self.now.tally.turns) }
    {
        board < plan.boards() && self.tally.turns >= TURN_LIMIT
    }

    // One turn more, with its numbers.
    fn count(&mut self, n: TurnCounts)
        requires left { self.old.tally.turns < turn_limit }
        requires few { (n.lost ≤ n.puts) × (n.puts ≤ 8) × (n.accepted ≤ 512) }
        ensures { self.new.tally ≡ tallied n self.old.tally }
    {
        let was = self.tally;
        self.tally = Tally {
            turns: was.turns + 1,
            puts: was.puts + n.puts,
            lost: was.lost + n.lost,
            accepted: was.accepted + n.accepted,
        };
    }

    // Board `board` takes all that waits for it, then puts what is due.
    pub fn turn<E: Element, D: Medium>(
        &mut self,
        plan: &PlanView,
        table: &mut LinkTable,
        medium: &mut D,
        copies: &mut [E],
        board: usize,
    ) -> Result<TurnCounts, RunFault>
        ensures exact { TurnAnswers E.Element.algebra plan.now.boards
            plan.now.copies.now plan.now.edges.now board
            (moment self.old.tally table.old.links copies.old
            (D.Medium.lanes medium.old)) (moment self.new.tally table.new.links
            copies.new (D.Medium.lanes medium.new)) result }
        ensures alone { OwnCopiesAlone E.Element.algebra plan.now.boards
            plan.now.copies.now board (D.Medium.lanes medium.old) copies.old
            copies.new }
        ensures still { OnErr result (medium.new ≡ medium.old) }
        ensures calls { OnOk result (Calls (rules_of D.lanes D.takes D.puts) medium.old
            (turn_calls E.algebra (shape plan.now.boards plan.now.edges.now)
            (seen E.algebra (moment self.old.tally table.old.links copies.old (D.lanes medium.old)))
            (seen E.algebra (moment self.new.tally table.new.links copies.new (D.lanes medium.new)))
            board) medium.new) }
        ensures promise { (s : Scene) → LaidPlan s plan.now.boards
            plan.now.copies.now plan.now.edges.now → GoesOn E.Element.algebra s board
            (moment self.old.tally table.old.links copies.old
            (D.Medium.lanes medium.old)) (moment self.new.tally table.new.links
            copies.new (D.Medium.lanes medium.new)) result }
    {
        if self.is_over(plan, board) {
            return Err(RunFault::Turns);
        }
        let counts = take_turn(plan, table, medium, copies, board)?;
        self.count(counts);
        Ok(counts)
    }
}
