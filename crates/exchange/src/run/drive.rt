// Ways through a run's states as they are meant: one loads before one starts, and one ends a run before its copies are
// shown.
ghost use Rattle.std.specs.Prelude.{◌≡◌, ◌++◌, length, drop, replicate, Some, None, IfErr, IfOk, OnOk};
ghost use Rattle.scene.specs.Views.{viewed};
ghost use Rattle.plan.specs.Links.{shape};
ghost use Rattle.plan.specs.Starts.{values_on};
ghost use Rattle.protocol.specs.Books.{lowest_unsettled};
ghost use Rattle.protocol.specs.Promise.{EveryRunKeepsThePromise};
ghost use Rattle.protocol.specs.Runs.{accepted_in, no_link, no_tally};
ghost use Rattle.sums.specs.Sums.{load_fault, loaded_copies};
ghost use Rattle.exchange.specs.Calls.{IdleBefore, finish_fault, show_fault};
ghost use Rattle.exchange.specs.Going.{BeginAnswers, BeginFault, BeginsFresh, ShowsTotals};

use super::load::load;
use super::show::check_show;
use super::start::check_idle;
use super::{Ended, Turning};
use element::element::Element;
use medium::medium::Medium;
use plan::view::PlanView;
use protocol::fault::RunFault;
use protocol::table::LinkTable;
use protocol::tally::Tally;
use scene::view::SceneView;
use sums::own::check_load;

// Refuses what loading refuses, or else a frame that waits somewhere.
fn check_begin<E: Element, D: Medium>(
    scene: &SceneView,
    plan: &PlanView,
    medium: &D,
    copies: &[E],
) -> Result<(), RunFault>
    ensures ok { OnOk result ((load_fault E.Element.algebra (viewed scene.now)
        plan.now.copies.now copies.now ≡ None)
        × IdleBefore (D.Medium.lanes medium.now) 64) }
    ensures err { IfErr result (BeginFault E.Element.algebra (viewed scene.now)
        plan.now.copies.now copies.now (D.Medium.lanes medium.now)) }
{
    check_load(scene, plan, copies)?;
    check_idle(medium)
}

// Loads and starts, where nothing is against it.
fn begin_checked<E: Element>(
    scene: &SceneView,
    plan: &PlanView,
    table: &mut LinkTable,
    copies: &mut [E],
) -> Turning
    requires { load_fault E.Element.algebra (viewed scene.now)
        plan.now.copies.now copies.old ≡ None }
    ensures copies { copies.new ≡ loaded_copies E.Element.algebra (viewed scene.now)
        plan.now.copies.now ++ drop (length plan.now.copies.now) copies.old }
    ensures tally { result.tally ≡ no_tally }
    ensures links { table.new.links ≡ replicate 64 no_link }
{
    let Ok(loaded) = load(scene, plan, copies) else {
        unreachable!()
    };
    loaded.reset(table)
}

// Loads the copies, then starts a run.
pub fn begin<E: Element, D: Medium>(
    scene: &SceneView,
    plan: &PlanView,
    table: &mut LinkTable,
    medium: &D,
    copies: &mut [E],
) -> Result<Turning, RunFault>
    ensures exact { BeginAnswers E.Element.algebra (viewed scene.now)
        plan.now.copies.now (D.Medium.lanes medium.now) copies.old
        copies.new table.old.links table.new.links result }
    ensures promise { BeginsFresh E.Element.algebra (viewed scene.now)
        plan.now.boards plan.now.copies.now plan.now.edges.now
        table.new.links copies.new (D.Medium.lanes medium.now) result }
    ensures every_run { EveryRunKeepsThePromise E E.Element.algebra }
{
    check_begin(scene, plan, medium, copies)?;
    Ok(begin_checked(scene, plan, table, copies))
}

// Hands out a board's copies of a run that has ended: they are the undivided totals.
fn show_totals<'a, E: Element>(
    ended: &Ended,
    plan: &PlanView,
    table: &LinkTable,
    copies: &'a [E],
    board: usize,
) -> &'a [E]
    requires shown { show_fault plan.now.boards plan.now.copies.now (length copies.now) board ≡ None }
    requires settled { lowest_unsettled (shape plan.now.boards plan.now.edges.now) (accepted_in table.now.links)
        ≡ plan.now.boards }
    ensures exact { result.now ≡ values_on plan.now.copies.now copies.now board }
    ensures promise { ShowsTotals E.Element.algebra plan.now.boards
        plan.now.copies.now plan.now.edges.now table.now.links copies.now
        board result.now }
{
    match ended.show(plan, copies, board) {
        Ok(shown) => shown,
        Err(_) => unreachable!(),
    }
}

// Ends a run and shows a board's copies, the undivided totals; answers its tally too. Refused, the run goes on.
pub fn finish<'a, E: Element>(
    turning: Turning,
    plan: &PlanView,
    table: &LinkTable,
    copies: &'a [E],
    board: usize,
) -> Result<(&'a [E], Tally), (Turning, RunFault)>
    ensures ok { IfOk result (λ done.
        (finish_fault plan.now.boards plan.now.copies.now (length copies.now) board
        (lowest_unsettled (shape plan.now.boards plan.now.edges.now)
        (accepted_in table.now.links)) ≡ None)
        × (done.0.now ≡ values_on plan.now.copies.now copies.now board)
        × (done.1 ≡ turning.tally)) }
    ensures err { IfErr result (λ back.
        (finish_fault plan.now.boards plan.now.copies.now (length copies.now) board
        (lowest_unsettled (shape plan.now.boards plan.now.edges.now)
        (accepted_in table.now.links)) ≡ Some back.1) × (back.0 ≡ turning)) }
    ensures promise { IfOk result (λ done. ShowsTotals E.Element.algebra plan.now.boards
        plan.now.copies.now plan.now.edges.now table.now.links copies.now
        board done.0.now) }
{
    if let Err(fault) = check_show(plan, copies.len(), board) {
        return Err((turning, fault));
    }
    let (ended, tally) = turning.end(plan, table)?;
    let shown = show_totals(&ended, plan, table, copies, board);
    let _ = ended.close();
    Ok((shown, tally))
}
