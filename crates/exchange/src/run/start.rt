// From loaded to turning.
ghost use Rattle.std.specs.Prelude.{◌≡◌, ◌/◌, ◌%◌, ◌≤◌, [], length, replicate, nat_lt};
ghost use Rattle.std.specs.Prelude.{IfErr, IfOk, OnOk};
ghost use Rattle.scene.specs.Cells.{Scene};
ghost use Rattle.protocol.specs.Books.{blank};
ghost use Rattle.protocol.specs.Runs.{moment, no_link, no_tally};
ghost use Rattle.exchange.specs.Calls.{IdleBefore, StartFault, WaitingFault};
ghost use Rattle.exchange.specs.Going.{Kept, LaidPlan, OwnSums};

use super::{Loaded, Turning};
use element::element::Element;
use medium::medium::Medium;
use plan::view::PlanView;
use protocol::fault::RunFault;
use protocol::room::check_room;
use protocol::table::{Link, LinkTable};
use protocol::tally::Tally;

// Whether a frame waits in the lane with this number.
fn waits<D: Medium>(medium: &D, lane: usize) -> bool
    ensures { result ≡ nat_lt 0 (length (D.Medium.lanes medium.now (lane / 8) (lane % 8))) }
{
    medium.waiting(lane / 8, lane % 8) > 0
}

// Refuses if a frame waits somewhere, with the first such lane.
pub(super) fn check_idle<D: Medium>(medium: &D) -> Result<(), RunFault>
    ensures ok { OnOk result (IdleBefore (D.Medium.lanes medium.now) 64) }
    ensures err { IfErr result (WaitingFault (D.Medium.lanes medium.now)) }
{
    match (0..64).find(|&k| waits(medium, k)) {
        Some(k) => Err(RunFault::Waiting {
            from: k / 8,
            to: k % 8,
        }),
        None => Ok(()),
    }
}

// Refuses memory too short for the plan's copies, then a frame that waits somewhere.
fn check_start<D: Medium>(plan: &PlanView, medium: &D, room: usize) -> Result<(), RunFault>
    ensures ok { OnOk result ((length plan.now.copies.now ≤ room)
        × IdleBefore (D.Medium.lanes medium.now) 64) }
    ensures err { IfErr result (StartFault plan.now.copies.now room (D.Medium.lanes medium.now)) }
{
    check_room(plan, room)?;
    check_idle(medium)
}

impl Loaded {
    // Sets every count to zero.
    pub(super) fn reset(self, table: &mut LinkTable) -> Turning
        ensures tally { result.tally ≡ no_tally }
        ensures links { table.new.links ≡ replicate 64 no_link }
    {
        let Loaded {
            copies: _loaded,
            linear,
        } = self;
        table.links = [Link { i: 0, j: 0 }; 64];
        Turning {
            tally: Tally {
                turns: 0,
                puts: 0,
                lost: 0,
                accepted: 0,
            },
            linear,
        }
    }

    // Sets every count to zero, unless memory is too short for the plan's copies or a frame still waits somewhere.
    pub fn start<E: Element, D: Medium>(
        self,
        plan: &PlanView,
        table: &mut LinkTable,
        medium: &D,
        copies: &[E],
    ) -> Result<Turning, (Loaded, RunFault)>
        ensures ok { IfOk result (λ t. (length plan.now.copies.now ≤ length copies.now)
            × IdleBefore (D.Medium.lanes medium.now) 64
            × (t.tally ≡ no_tally) × (table.new.links ≡ replicate 64 no_link)) }
        ensures err { IfErr result (λ e. StartFault plan.now.copies.now
            (length copies.now) (D.Medium.lanes medium.now) e.1
            × (e.0 ≡ self) × (table.new ≡ table.old)) }
        ensures promise { IfOk result (λ t. (s : Scene) → LaidPlan s plan.now.boards
            plan.now.copies.now plan.now.edges.now → OwnSums E.Element.algebra s
            copies.now → Kept E.Element.algebra s []
            (moment t.tally table.new.links copies.now
            (D.Medium.lanes medium.now)) blank 0) }
    {
        if let Err(fault) = check_start(plan, medium, copies.len()) {
            return Err((self, fault));
        }
        Ok(self.reset(table))
    }
}
