// How a run is left, what may be asked of it before, and how a state is put away.
ghost use Rattle.std.specs.Prelude.{◌≡◌, ◌<◌, not, nat_lt, IfErr, IfOk, MatchOption};
ghost use Rattle.plan.specs.Links.{shape};
ghost use Rattle.protocol.specs.Books.{lowest_unsettled};
ghost use Rattle.protocol.specs.Runs.{accepted_in};

use super::report::report_on;
use super::{Ended, Linear, Loaded, Turning};
use plan::view::PlanView;
use protocol::fault::RunFault;
use protocol::table::LinkTable;
use protocol::tally::{Report, Tally};

// The lowest board that is not settled, if there is one.
fn first_unsettled(plan: &PlanView, table: &LinkTable) -> Option<usize>
    ensures { MatchOption result
        (lowest_unsettled (shape plan.now.boards plan.now.edges.now) (accepted_in table.now.links) ≡ plan.now.boards)
        (λ p. (p < plan.now.boards)
        × (p ≡ lowest_unsettled (shape plan.now.boards plan.now.edges.now) (accepted_in table.now.links))) }
{
    (0..plan.boards()).find(|&p| report_on(plan, table, p) != Report::Settled)
}

impl Turning {
    // Ends the run exactly if every board is settled; answers its tally.
    pub fn end(
        self,
        plan: &PlanView,
        table: &LinkTable,
    ) -> Result<(Ended, Tally), (Turning, RunFault)>
        ensures ok { IfOk result (λ e. (lowest_unsettled
            (shape plan.now.boards plan.now.edges.now)
            (accepted_in table.now.links) ≡ plan.now.boards)
            × (e.0.tally ≡ self.tally) × (e.1 ≡ self.tally)) }
        ensures err { IfErr result (λ e. (lowest_unsettled
            (shape plan.now.boards plan.now.edges.now)
            (accepted_in table.now.links) < plan.now.boards) × (e.0 ≡ self)
            × (e.1 ≡ RunFault.Early (lowest_unsettled (shape plan.now.boards
            plan.now.edges.now) (accepted_in table.now.links)))) }
    {
        if let Some(board) = first_unsettled(plan, table) {
            return Err((self, RunFault::Early { board }));
        }
        let Turning { tally, linear } = self;
        Ok((Ended { tally, linear }, tally))
    }

    // Kept: three states are left by three names, here and below: each is taken apart by its own pattern.
    // Gives the run up, whatever its state; answers its tally.
    pub fn abandon(self) -> Tally
        ensures { result ≡ self.tally }
    {
        let Turning {
            tally: given_up,
            linear: Linear,
        } = self;
        given_up
    }

    // Whether every board is settled.
    pub fn all_settled(&self, plan: &PlanView, table: &LinkTable) -> bool
        ensures { result ≡ not (nat_lt (lowest_unsettled
            (shape plan.now.boards plan.now.edges.now)
            (accepted_in table.now.links)) plan.now.boards) }
    {
        first_unsettled(plan, table).is_none()
    }

    pub fn tally(&self) -> Tally
        ensures { result ≡ self.now.tally }
    {
        self.tally
    }
}

impl Ended {
    // Puts an ended run away.
    pub fn close(self) -> Tally
        ensures { result ≡ self.tally }
    {
        let Ended {
            tally: kept,
            linear: Linear,
        } = self;
        kept
    }
}

impl Loaded {
    // Puts a run away before it starts; answers how many copies were loaded.
    pub fn discard(self) -> usize
        ensures { result ≡ self.copies }
    {
        let Loaded {
            copies: unused,
            linear: Linear,
        } = self;
        unused
    }
}
