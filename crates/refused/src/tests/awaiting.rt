// A run over a medium that keeps nothing: every board goes on waiting.
use super::deaf::Deaf;
use super::given::{NO_DEPTHS, SCENE, plan, started};
use cabinet::listed::list;
use circles::goal::AllSettled;
use circles::settle::{Ending, Settling, settle};
use element::depth::Depth;
use exchange::fault::RunFault;
use exchange::run::Turning;
use listing::lines::board_line;
use medium::queue::Queue;
use plan::view::PlanView;
use protocol::table::LinkTable;
use protocol::tally::{Report, Tally};
use std::process::Abort;
use std::test::Fail;

// Each board awaits both items of the other, and the line says from whom.
fn both_await(
    rt: &impl Abort,
    turning: &Turning,
    plan: &PlanView,
    table: &LinkTable,
) -> Result<(), Fail> {
    let first = turning.report(plan, table, 0);
    assert!(rt; first == Ok(Report::Awaits { board: 1, items: 2 }));
    let second = turning.report(plan, table, 1);
    assert!(rt; second == Ok(Report::Awaits { board: 0, items: 2 }));
    let Ok(report) = second else {
        return Err(Fail::new("no report"));
    };
    assert!(rt; board_line(1, report).bytes() == b"1 awaits 0\n".as_slice());
    Ok(())
}

// The run does not end: its state comes back, and is given up. Answers its tally and why it did not end.
fn given_up(turning: Turning, plan: &PlanView, table: &LinkTable) -> Option<(Tally, RunFault)> {
    match turning.end(plan, table) {
        Ok((ended, _)) => {
            ended.close();
            None
        }
        Err((turning, fault)) => { Some((turning.abandon(), fault)) }
    }
}

#[test]
fn deaf_lanes_leave_boards_awaiting(rt: HostRuntime) -> Result<(), Fail> {
    let plan = plan();
    let mut table = LinkTable::new();
    let mut values = NO_DEPTHS;
    let mut medium = Deaf;
    let mut turning = started(&plan, &mut table, &medium, &mut values)?;
    let settled = settle(
        &mut turning,
        &plan,
        &mut table,
        &mut medium,
        &mut values,
        &AllSettled,
        3,
    );
    let awaiting = both_await(&rt, &turning, &plan, &table);
    let given_up = given_up(turning, &plan, &table);
    awaiting?;
    let (tally, fault) = given_up.ok_or("the run ended")?;
    assert!(rt; fault == RunFault::Early { board: 0 } && fault.number() == 15);
    assert!(rt;
        settled
            == Ok(Settling {
                ending: Ending::Limit,
                circles: 3
            })
    );
    // Board 1 puts its first item again in each circle; board 0 has nothing to put before it has gathered.
    let lossy = Tally {
        turns: 6,
        puts: 3,
        lost: 3,
        accepted: 0,
    };
    assert!(rt; tally == lossy);
    let own = [5, 7, 1, 4, 6, 9];
    assert!(rt;
        values
            .iter()
            .zip(own)
            .all(|(depth, value)| depth.value == value)
    );
    Ok(())
}

// Nothing arrives in any of the 100,000 circles allowed: the page tells whom each board awaits, and own sums.
const AWAITING_PAGE: &[u8; 173] = b"boards 2 overlap 0 kind 2 copies 6 edges 2
turns 200000 puts 100000 lost 100000 accepted 0
0 awaits 1
0 0 5 0 0
0 1 7 0 0
0 2 1 0 0
1 awaits 0
1 1 4 0 0
1 2 6 0 0
1 3 9 0 0
";

#[test]
fn a_run_that_goes_on_is_listed(rt: HostRuntime) -> Result<(), Fail> {
    let page = list(rt.alloc(), SCENE, Deaf)?;
    assert!(rt; page.as_slice() == AWAITING_PAGE.as_slice());
    Ok(())
}

#[test]
fn board_1_alone_may_be_awaiting(rt: HostRuntime) -> Result<(), Fail> {
    let plan = plan();
    let mut table = LinkTable::new();
    let mut values = NO_DEPTHS;
    let mut medium = Queue::new();
    let mut turning = started(&plan, &mut table, &medium, &mut values)?;
    // In its third turn board 0 has both items; board 1 is still to take what they came to.
    let _ = settle(
        &mut turning,
        &plan,
        &mut table,
        &mut medium,
        &mut values,
        &AllSettled,
        2,
    );
    let _ = turning.turn(&plan, &mut table, &mut medium, &mut values, 0);
    let first = turning.report(&plan, &table, 0);
    let second = turning.report(&plan, &table, 1);
    let given_up = given_up(turning, &plan, &table);
    assert!(rt; first == Ok(Report::Settled));
    assert!(rt; second == Ok(Report::Awaits { board: 0, items: 2 }));
    let (tally, fault) = given_up.ok_or("the run ended")?;
    assert!(rt; tally.turns == 5 && tally.accepted == 2);
    assert!(rt; fault == RunFault::Early { board: 1 } && fault.last() == 1);
    Ok(())
}
