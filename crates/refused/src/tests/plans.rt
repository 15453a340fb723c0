// Memory that is too short for a plan, and records that make none.
use super::given::{COPIES, EDGES, plan, scene};
use laying::fault::LayFault;
use laying::laying::{LaidCounts, lay};
use plan::fault::PlanFault;
use plan::records::{CopyRecord, Edge};
use plan::view::PlanView;
use std::process::Abort;
use std::test::Fail;

// Records that no plan of the scene has.
const NO_COPY: CopyRecord = CopyRecord {
    board: 9,
    vertex: 9,
};

const NO_EDGE: Edge = Edge {
    from: 9,
    to: 9,
    vertex: 9,
    leaf: 9,
    root: 9,
};

#[test]
fn laying_fills_just_enough_memory(rt: HostRuntime) {
    let (mut copies, mut edges) = ([NO_COPY; 6], [NO_EDGE; 2]);
    let counts = lay(&scene(), &mut copies, &mut edges);
    assert!(rt;
        counts
            == Ok(LaidCounts {
                copies: 6,
                edges: 2,
            })
    );
    assert!(rt; copies == COPIES && edges == EDGES);
}

// Kept: two tests; of arrays with a const parameter for length `==` asks what the check does not find.
#[test]
fn too_few_copies_are_refused(rt: HostRuntime) -> Result<(), Fail> {
    let (mut copies, mut edges) = ([NO_COPY; 5], [NO_EDGE; 1]);
    let Err(fault) = lay(&scene(), &mut copies, &mut edges) else {
        return Err(Fail::new("laid"));
    };
    assert!(rt; fault.number() == 8 && fault.which() == 0 && fault.last() == 6);
    assert!(rt; copies == [NO_COPY; 5] && edges == [NO_EDGE; 1]);
    Ok(())
}

#[test]
fn too_few_edges_are_refused(rt: HostRuntime) -> Result<(), Fail> {
    let (mut copies, mut edges) = ([NO_COPY; 6], [NO_EDGE; 1]);
    let Err(fault) = lay(&scene(), &mut copies, &mut edges) else {
        return Err(Fail::new("laid"));
    };
    assert!(rt; fault.number() == 8 && fault.which() == 1 && fault.last() == 2);
    assert!(rt; copies == [NO_COPY; 6] && edges == [NO_EDGE; 1]);
    Ok(())
}

// Why these records make no plan.
fn fault_of<'a>(boards: usize, copies: &'a [CopyRecord], edges: &'a [Edge]) -> Option<PlanFault> {
    let mut view = PlanView::new();
    view.take(boards, copies, edges).err()
}

// The refusal is this one, with these numbers.
fn is_refused(
    rt: &impl Abort,
    found: Option<PlanFault>,
    fault: PlanFault,
    number: u8,
    last: usize,
) -> Result<(), Fail> {
    let found = found.ok_or("the records are taken")?;
    assert!(rt; found == fault && found.number() == number && found.last() == last);
    Ok(())
}

#[test]
fn plans_have_1_to_8_boards(rt: HostRuntime) -> Result<(), Fail> {
    let none = fault_of(0, &COPIES, &EDGES);
    is_refused(&rt, none, PlanFault::Boards { given: 0 }, 13, 0)?;
    // The count comes before the records.
    let nine = fault_of(9, &[NO_COPY], &[NO_EDGE]);
    is_refused(&rt, nine, PlanFault::Boards { given: 9 }, 13, 9)?;
    assert!(rt; fault_of(8, &COPIES, &EDGES) == None);
    Ok(())
}

#[test]
fn copies_that_break_the_rules_are_refused(rt: HostRuntime) -> Result<(), Fail> {
    // Of one board, board 1 is none.
    let outside = fault_of(1, &COPIES, &EDGES);
    is_refused(&rt, outside, PlanFault::Copy { number: 3 }, 9, 3)?;
    // A copy stands twice; copies come before edges.
    let twice = fault_of(2, &[COPIES[0], COPIES[1], COPIES[1]], &[NO_EDGE]);
    is_refused(&rt, twice, PlanFault::Copy { number: 2 }, 9, 2)
}

#[test]
fn edges_that_break_the_rules_are_refused(rt: HostRuntime) -> Result<(), Fail> {
    // An edge stands twice.
    let twice = fault_of(2, &COPIES, &[EDGES[0], EDGES[0]]);
    is_refused(&rt, twice, PlanFault::Edge { number: 1 }, 9, 1)?;
    // An edge names the copy of another vertex.
    let crossed = Edge {
        from: 1,
        to: 0,
        vertex: 1,
        leaf: 3,
        root: 2,
    };
    let wrong = fault_of(2, &COPIES, &[crossed, EDGES[1]]);
    is_refused(&rt, wrong, PlanFault::Edge { number: 0 }, 9, 0)
}

#[test]
fn a_view_keeps_its_plan_where_it_refuses_another(rt: HostRuntime) {
    let mut view = plan();
    assert!(rt; view.take(9, &[], &[]) == Err(PlanFault::Boards { given: 9 }));
    assert!(rt; view.boards() == 2 && view.copies().len() == 6 && view.edges().len() == 2);
}
