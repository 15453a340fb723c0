// Reports and ends of a run, with what the book says of them. E is the type of the run's elements.
ghost use Rattle.std.specs.Prelude.{◌≡◌, ◌<◌, cond, Ok, Err, nat_lt, MatchResult};
ghost use Rattle.scene.specs.Cells.{Scene};
ghost use Rattle.plan.specs.Links.{shape};
ghost use Rattle.protocol.specs.Books.{lowest_unsettled, report_by};
ghost use Rattle.protocol.specs.Runs.{accepted_in};
ghost use Rattle.exchange.specs.Going.{EndsByTheBook, InEveryRun, LaidPlan, ReportsTheBook};

use super::{Ended, Turning};
use element::element::Element;
use plan::view::PlanView;
use protocol::fault::RunFault;
use protocol::table::LinkTable;
use protocol::tally::{Report, Tally};

// Says whether a board is settled, or else which board's items it awaits: in every run as the book says.
pub fn report_by_the_book<E: Element>(
    turning: &Turning,
    plan: &PlanView,
    table: &LinkTable,
    board: usize,
) -> Result<Report, RunFault>
    ensures exact { result ≡ cond (nat_lt board plan.now.boards)
        (Ok (report_by (shape plan.now.boards plan.now.edges.now)
        (accepted_in table.now.links) board)) (Err (RunFault.Board board)) }
    ensures promise { (s : Scene) → LaidPlan s plan.now.boards
        plan.now.copies.now plan.now.edges.now
        → InEveryRun E.Element.algebra s turning.now.tally table.now.links
        (ReportsTheBook E.Element.algebra s board result) }
{
    // Kept: by cases, which the proof takes one by one, so that a wrong case shows here.
    match turning.report(plan, table, board) {
        Ok(report) => Ok(report),
        Err(fault) => Err(fault),
    }
}

// Ends the run exactly if every board is settled, in every run as the book says; answers its tally.
pub fn end_by_the_book<E: Element>(
    turning: Turning,
    plan: &PlanView,
    table: &LinkTable,
) -> Result<(Ended, Tally), (Turning, RunFault)>
    ensures exact { MatchResult result
        (λ e. (lowest_unsettled (shape plan.now.boards plan.now.edges.now)
        (accepted_in table.now.links) ≡ plan.now.boards)
        × (e.0.tally ≡ turning.tally) × (e.1 ≡ turning.tally))
        (λ e. (lowest_unsettled (shape plan.now.boards plan.now.edges.now)
        (accepted_in table.now.links) < plan.now.boards) × (e.0 ≡ turning)
        × (e.1 ≡ RunFault.Early (lowest_unsettled (shape plan.now.boards
        plan.now.edges.now) (accepted_in table.now.links)))) }
    ensures promise { (s : Scene) → LaidPlan s plan.now.boards
        plan.now.copies.now plan.now.edges.now
        → InEveryRun E.Element.algebra s turning.tally table.now.links
        (EndsByTheBook E.Element.algebra s result) }
{
    // Kept: by cases, as above.
    match turning.end(plan, table) {
        Ok((ended, tally)) => Ok((ended, tally)),
        Err(back) => Err(back),
    }
}
