// Calls of a run that are refused, and a run after one that was given up.
ghost use Rattle.std.specs.Prelude.{◌≤◌};

use super::given::{NO_DEPTHS, SOME_FRAME, plan, refusal, scene, started};
use circles::goal::AllSettled;
use circles::settle::settle;
use element::depth::Depth;
use element::tags::Tags;
use exchange::fault::RunFault;
use exchange::run::drive::{begin, finish};
use exchange::run::load::load;
use exchange::run::{Ended, Loaded, Turning};
use medium::medium::Medium;
use medium::queue::Queue;
use plan::view::PlanView;
use protocol::table::{Link, LinkTable};
use std::process::Abort;
use std::test::Fail;

#[test]
fn loading_another_kind_is_refused(rt: HostRuntime) {
    // There is too little memory as well: the smaller number counts.
    let mut values = [Tags { low: 3, high: 4 }; 5];
    assert!(rt;
        refusal(load(&scene(), &plan(), &mut values).map(Loaded::discard)) == Some((10, 2))
    );
    assert!(rt; values == [Tags { low: 3, high: 4 }; 5]);
}

#[test]
fn loading_short_memory_is_refused(rt: HostRuntime) {
    let mut values = [Depth { value: 3 }; 5];
    assert!(rt;
        refusal(load(&scene(), &plan(), &mut values).map(Loaded::discard)) == Some((11, 6))
    );
    assert!(rt; values == [Depth { value: 3 }; 5]);
}

// How many copies the state counts that came back, and why the start was refused.
fn start_refusal(medium: &Queue, table: &mut LinkTable, room: usize) -> Option<(usize, RunFault)>
    requires { room ≤ 6 }
{
    let mut values = NO_DEPTHS;
    let loaded = load(&scene(), &plan(), &mut values).ok()?;
    match loaded.start(&plan(), table, medium, &values[0..room]) {
        Ok(turning) => {
            turning.abandon();
            None
        }
        Err((loaded, fault)) => { Some((loaded.discard(), fault)) }
    }
}

#[test]
fn starting_over_a_waiting_frame_is_refused(rt: HostRuntime) -> Result<(), Fail> {
    let mut medium = Queue::new();
    medium.put(5, 3, SOME_FRAME);
    medium.put(4, 6, SOME_FRAME);
    let (copies, fault) = start_refusal(&medium, &mut LinkTable::new(), 6).ok_or("it started")?;
    assert!(rt; copies == 6 && fault == RunFault::Waiting { from: 4, to: 6 });
    assert!(rt; fault.number() == 12 && fault.last() == 6);
    Ok(())
}

#[test]
fn starting_with_short_memory_is_refused(rt: HostRuntime) -> Result<(), Fail> {
    // A frame waits as well: the smaller number counts.
    let mut medium = Queue::new();
    medium.put(5, 3, SOME_FRAME);
    let mut table = LinkTable::new();
    table.links[9] = Link { i: 1, j: 1 };
    let (copies, fault) = start_refusal(&medium, &mut table, 5).ok_or("it started")?;
    assert!(rt; copies == 6 && fault == RunFault::Short { needed: 6 });
    assert!(rt; fault.number() == 11 && fault.last() == 6);
    let kept = table.links[9];
    assert!(rt; kept == Link { i: 1, j: 1 });
    Ok(())
}

// A turn and a report of a board that there is not, and a turn with too short a memory. None of them counts.
fn refuses(
    rt: &impl Abort,
    turning: &mut Turning,
    plan: &PlanView,
    table: &mut LinkTable,
) -> Result<(), Fail> {
    let mut medium = Queue::new();
    let mut few = [Depth { value: 3 }; 5];
    let stranger = turning.turn(plan, table, &mut medium, &mut few, 2);
    assert!(rt; refusal(stranger) == Some((13, 2)));
    assert!(rt; refusal(turning.report(plan, table, 2)) == Some((13, 2)));
    let short = turning.turn(plan, table, &mut medium, &mut few, 0);
    assert!(rt; refusal(short) == Some((11, 6)));
    assert!(rt; few == [Depth { value: 3 }; 5] && turning.tally().turns == 0);
    Ok(())
}

#[test]
fn turns_and_reports_are_refused(rt: HostRuntime) -> Result<(), Fail> {
    let mut table = LinkTable::new();
    let mut values = NO_DEPTHS;
    let mut turning = started(&plan(), &mut table, &Queue::new(), &mut values)?;
    let refused = refuses(&rt, &mut turning, &plan(), &mut table);
    turning.abandon();
    refused
}

// Board 1 shows its copies; a board that there is not and too short a memory are refused.
fn shows(rt: &impl Abort, ended: &Ended, plan: &PlanView, values: &[Depth; 6]) -> Result<(), Fail> {
    let Ok(shown) = ended.show(plan, values, 1) else {
        return Err(Fail::new("board 1 shows nothing"));
    };
    assert!(rt; shown == [Depth { value: 7 }, Depth { value: 6 }, Depth { value: 9 }].as_slice());
    assert!(rt; refusal(ended.show(plan, values, 2)) == Some((13, 2)));
    assert!(rt; refusal(ended.show(plan, &values[0..5], 2)) == Some((11, 6)));
    Ok(())
}

#[test]
fn showing_is_refused(rt: HostRuntime) -> Result<(), Fail> {
    let plan = plan();
    let mut table = LinkTable::new();
    let mut medium = Queue::new();
    let mut values = NO_DEPTHS;
    let mut turning = started(&plan, &mut table, &medium, &mut values)?;
    let _ = settle(
        &mut turning,
        &plan,
        &mut table,
        &mut medium,
        &mut values,
        &AllSettled,
        9,
    );
    match turning.end(&plan, &table) {
        Ok((ended, _)) => {
            let seen = shows(&rt, &ended, &plan, &values);
            ended.close();
            seen
        }
        Err((turning, _)) => {
            turning.abandon();
            Err(Fail::new("the run does not end"))
        }
    }
}

// A run in which boards 1 and 0 turn twice, and which is given up.
fn try_out(plan: &PlanView, table: &mut LinkTable, values: &mut [Depth]) -> Result<(), Fail> {
    let mut worn = Queue::new();
    let mut turning = started(plan, table, &worn, values)?;
    for board in [1, 0, 1, 0] {
        let _ = turning.turn(plan, table, &mut worn, values, board);
    }
    turning.abandon();
    Ok(())
}

#[test]
fn a_run_begun_after_another_ends_with_the_totals(rt: HostRuntime) -> Result<(), Fail> {
    let plan = plan();
    let mut table = LinkTable::new();
    let mut medium = Queue::new();
    let mut values = NO_DEPTHS;
    try_out(&plan, &mut table, &mut values)?;
    // Board 0's own sum there is 1: what the copies hold now are no own sums.
    assert!(rt; values[2] == Depth { value: 6 });
    let mut turning = match begin(&scene(), &plan, &mut table, &medium, &mut values) {
        Ok(turning) => turning,
        Err(_) => return Err(Fail::new("the start is refused")),
    };
    let mut turning = match finish(turning, &plan, &table, &values, 1) {
        Ok(_) => return Err(Fail::new("a run ends before its first turn")),
        Err((turning, fault)) => {
            assert!(rt; (fault.number(), fault.last()) == (15, 0));
            turning
        }
    };
    let _ = settle(
        &mut turning,
        &plan,
        &mut table,
        &mut medium,
        &mut values,
        &AllSettled,
        9,
    );
    match finish(turning, &plan, &table, &values, 1) {
        Ok((shown, _)) => {
            assert!(rt;
                shown == [Depth { value: 7 }, Depth { value: 6 }, Depth { value: 9 }].as_slice()
            );
            Ok(())
        }
        Err((turning, _)) => {
            turning.abandon();
            Err(Fail::new("board 1 shows nothing"))
        }
    }
}

// Turns of board 0.
fn turn_often(
    turning: &mut Turning,
    plan: &PlanView,
    table: &mut LinkTable,
    values: &mut [Depth],
    times: usize,
) {
    let mut medium = Queue::new();
    for _ in 0..times {
        let _ = turning.turn(plan, table, &mut medium, values, 0);
    }
}

#[test]
fn turn_1000001_is_refused(rt: HostRuntime) -> Result<(), Fail> {
    let plan = PlanView::new();
    let mut table = LinkTable::new();
    let mut values = NO_DEPTHS;
    let mut turning = started(&plan, &mut table, &Queue::new(), &mut values)?;
    turn_often(&mut turning, &plan, &mut table, &mut values, 1000000);
    let mut medium = Queue::new();
    let last = turning.turn(&plan, &mut table, &mut medium, &mut values, 0);
    let stranger = turning.turn(&plan, &mut table, &mut medium, &mut values, 1);
    assert!(rt; turning.abandon().turns == 1000000);
    assert!(rt; refusal(last) == Some((14, 1000000)) && refusal(stranger) == Some((13, 1)));
    Ok(())
}
