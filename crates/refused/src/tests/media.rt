// Limits that no quota has, and boards that no lane leads from or to.
use super::given::SOME_FRAME;
use medium::medium::Medium;
use medium::queue::Queue;
use medium::quota::{Limit, Quota, QuotaFault};
use medium::script::Script;
use std::test::Fail;

// The limit that is refused.
fn refused_limit(frames: usize) -> Option<usize> {
    let QuotaFault::Limit { given } = Limit::new(frames).err()?;
    Some(given)
}

// From p to q no put leaves a frame, and none waits.
fn is_no_lane<M: Medium>(medium: &mut M, p: usize, q: usize) -> bool {
    medium.put(p, q, SOME_FRAME) == 0
        && medium.put(p, q, SOME_FRAME) == 0
        && medium.waiting(p, q) == 0
        && medium.take(p, q).is_none()
}

// Board 8 and those past it have no lane, and board 7 has one.
fn has_no_board_8<M: Medium>(medium: &mut M) -> bool {
    is_no_lane(medium, 8, 7)
        && is_no_lane(medium, 7, 8)
        && is_no_lane(medium, 0, usize::MAX)
        && is_no_lane(medium, usize::MAX, 0)
        && medium.waiting(7, 7) == 0
        && medium.put(7, 7, SOME_FRAME) == 1
        && medium.take(7, 7).is_some()
}

#[test]
fn limits_of_0_and_65_are_refused(rt: HostRuntime) {
    assert!(rt; refused_limit(0) == Some(0) && refused_limit(65) == Some(65));
    assert!(rt; refused_limit(1) == None && refused_limit(64) == None);
}

#[test]
fn no_medium_has_a_board_8(rt: HostRuntime) -> Result<(), Fail> {
    let Ok(limit) = Limit::new(1) else {
        return Err(Fail::new("the limit 1 is refused"));
    };
    assert!(rt; has_no_board_8(&mut Queue::new()));
    assert!(rt; has_no_board_8(&mut Quota::over(Queue::new(), limit)));
    // The script's put number 8 goes down twice, and a quota of 1 leaves one of the two.
    let mut script = Script::over(Quota::over(Queue::new(), limit));
    assert!(rt; has_no_board_8(&mut script));
    Ok(())
}
