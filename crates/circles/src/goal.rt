// What circles are made for.
ghost use Rattle.std.specs.Prelude.{◌≡◌, ℕ, Bool};
ghost use Rattle.plan.specs.Links.{Shape, shape};
ghost use Rattle.protocol.specs.Runs.{accepted_in};

use exchange::run::Turning;
use plan::view::PlanView;
use protocol::table::LinkTable;

// A test of how far a run has come.
pub trait Goal {
    // Whether it is met, by the plan's links and the counts of accepted items.
    ghost met: { Shape → (ℕ → ℕ → ℕ) → Bool };

    fn is_met(&self, turning: &Turning, plan: &PlanView, table: &LinkTable) -> bool
        ensures { result ≡ met (shape plan.now.boards plan.now.edges.now) (accepted_in table.now.links) };
}

// Every board is settled.
#[derive(Clone, Copy, PartialEq, Eq)]
pub struct AllSettled;

impl Goal for AllSettled {
    ghost use Rattle.circles.specs.Chains.{all_settled};

    ghost met = { all_settled };

    fn is_met(&self, turning: &Turning, plan: &PlanView, table: &LinkTable) -> bool {
        turning.all_settled(plan, table)
    }
}
