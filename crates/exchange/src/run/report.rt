// What a board still lacks.
ghost use Rattle.std.specs.Prelude.{◌≡◌, ◌<◌, cond, Ok, Err, nat_lt, MatchOption};
ghost use Rattle.forest.specs.Forest.{lowest};
ghost use Rattle.plan.specs.Links.{shape};
ghost use Rattle.protocol.specs.Books.{lacks, report_by};
ghost use Rattle.protocol.specs.Runs.{accepted_in};

use super::Turning;
use plan::view::PlanView;
use protocol::fault::RunFault;
use protocol::table::LinkTable;
use protocol::tally::Report;

// How many items board p lacks from board q.
// Kept: the bound of a board's number, here and in the two below; a type for such numbers would be no plainer.
fn lacking(plan: &PlanView, table: &LinkTable, p: usize, q: usize) -> usize
    requires { (p < 8) × (q < 8) }
    ensures { result ≡ lacks (shape plan.now.boards plan.now.edges.now)
        (accepted_in table.now.links) p q }
{
    let items = plan.edges_between(q, p).len() + plan.edges_between(p, q).len();
    items.saturating_sub(table.links[8 * q + p].j)
}

// The lowest board from which board p lacks items, if it lacks any.
fn awaited_board(plan: &PlanView, table: &LinkTable, p: usize) -> Option<usize>
    requires { p < 8 }
    ensures { MatchOption result
        (lowest (λ q. nat_lt 0 (lacks (shape plan.now.boards plan.now.edges.now)
        (accepted_in table.now.links) p q)) plan.now.boards ≡ plan.now.boards)
        (λ q. (q < plan.now.boards)
        × (q ≡ lowest (λ r. nat_lt 0 (lacks (shape plan.now.boards plan.now.edges.now)
        (accepted_in table.now.links) p r)) plan.now.boards)) }
{
    (0..plan.boards()).find(|&q| lacking(plan, table, p, q) > 0)
}

// That board, and how many items.
pub(crate) fn report_on(plan: &PlanView, table: &LinkTable, p: usize) -> Report
    requires { p < 8 }
    ensures { result ≡ report_by (shape plan.now.boards plan.now.edges.now)
        (accepted_in table.now.links) p }
{
    match awaited_board(plan, table, p) {
        Some(board) => Report::Awaits {
            board,
            items: lacking(plan, table, p, board),
        },
        None => Report::Settled,
    }
}

impl Turning {
    // Says whether a board is settled, or else which board's items it awaits.
    pub fn report(
        &self,
        plan: &PlanView,
        table: &LinkTable,
        board: usize,
    ) -> Result<Report, RunFault>
        ensures { result ≡ cond (nat_lt board plan.now.boards)
            (Ok (report_by (shape plan.now.boards plan.now.edges.now)
            (accepted_in table.now.links) board)) (Err (RunFault.Board board)) }
    {
        if board >= plan.boards() {
            return Err(RunFault::Board { given: board });
        }
        Ok(report_on(plan, table, board))
    }
}
