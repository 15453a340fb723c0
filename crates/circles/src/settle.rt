// Ascending circles, until what they are made for is met.
ghost use Rattle.std.specs.Prelude.{◌≡◌, Some, None};
ghost use Rattle.medium.specs.Calls.{rules_of};
ghost use Rattle.plan.specs.Links.{shape};
ghost use Rattle.circles.specs.Chains.{snapshot};
ghost use Rattle.circles.specs.Circles.{CircleAnswers, SettleAnswers};

use crate::check::check_circle;
use crate::goal::Goal;
use element::element::Element;
use exchange::run::Turning;
use medium::medium::Medium;
use plan::view::PlanView;
use protocol::fault::RunFault;
use protocol::room::check_room;
use protocol::table::LinkTable;

// Why no further circle was made.
#[derive(Clone, Copy, PartialEq, Eq)]
pub enum Ending {
    // what they are made for is met
    Met,
    // as many were made as allowed
    Limit,
    // too few turns are left for all boards
    OutOfTurns,
}

// How circles came to an end, and how many were made.
#[derive(Clone, Copy, PartialEq, Eq)]
pub struct Settling {
    pub ending: Ending,
    pub circles: usize,
}

// One turn of each board, ascending. Refused for short memory, or where turns do not suffice for all boards.
pub fn circle<E: Element, D: Medium>(
    turning: &mut Turning,
    plan: &PlanView,
    table: &mut LinkTable,
    medium: &mut D,
    copies: &mut [E],
) -> Result<(), RunFault>
    ensures exact { CircleAnswers E.algebra (rules_of D.lanes D.takes D.puts)
        plan.now.boards plan.now.copies.now plan.now.edges.now
        (snapshot turning.old.tally table.old.links copies.old medium.old)
        (snapshot turning.new.tally table.new.links copies.new medium.new) result }
{
    check_circle(turning, plan, copies.len())?;
    for p in 0..plan.boards() {
        let Ok(_) = turning.turn(plan, table, medium, copies, p) else {
            unreachable!()
        };
    }
    Ok(())
}

// Circles until the goal is met, which is looked at before each and after the last; or as many as allowed.
// Refused for short memory alone.
pub fn settle<E: Element, D: Medium, G: Goal>(
    turning: &mut Turning,
    plan: &PlanView,
    table: &mut LinkTable,
    medium: &mut D,
    copies: &mut [E],
    goal: &G,
    limit: usize,
) -> Result<Settling, RunFault>
    ensures exact { SettleAnswers E.algebra (rules_of D.lanes D.takes D.puts)
        plan.now.boards plan.now.copies.now plan.now.edges.now
        (G.met (shape plan.now.boards plan.now.edges.now)) limit
        (snapshot turning.old.tally table.old.links copies.old medium.old)
        (snapshot turning.new.tally table.new.links copies.new medium.new) result }
{
    check_room(plan, copies.len())?;
    for circles in 0..limit {
        if goal.is_met(turning, plan, table) {
            return Ok(Settling {
                ending: Ending::Met,
                circles,
            });
        }
        let Ok(_) = circle(turning, plan, table, medium, copies) else {
            return Ok(Settling {
                ending: Ending::OutOfTurns,
                circles,
            });
        };
    }
    let ending = if goal.is_met(turning, plan, table) {
        Ending::Met
    } else {
        Ending::Limit
    };
    Ok(Settling {
        ending,
        circles: limit,
    })
}
