// A medium that keeps up to 8 frames a lane.
ghost use Rattle.std.specs.Prelude.{◌≡◌, ◌≤◌, false, [], length, MatchOption};
ghost use Rattle.std.specs.Array.{AllOfLen};
ghost use Rattle.std.specs.List.{All};
ghost use Rattle.arrayvec.specs.ArrayVec.{array_vec_len};
ghost use Rattle.medium.specs.Lanes.{is_lane, StandsAt};

use crate::frame::Frame;
use crate::medium::Medium;
use arrayvec::ArrayVec;

#[derive(Drop)]
pub struct Queue {
    // The lane from p to q stands at 8 * p + q, its frames oldest first.
    // Kept: one flat array of fixed length, without a heap.
    lanes: [ArrayVec<Frame, 8>; 64],
    ghost sized: { length lanes ≡ 64 },
    ghost few: { All (λ l. array_vec_len l ≤ 8) lanes },
}

impl Queue {
    ghost use Rattle.medium.specs.Lanes.{empty_lanes};
    ghost use Rattle.medium.specs.Held.{queue_lanes, queue_rules};
    ghost use Rattle.medium.specs.Calls.{FillsEmptyLanes, LooksLikeEachEmpty};

    // No frame waits.
    #[tactic(auto, using(crate::specs::Tables::made_few))]
    pub fn new() -> Queue
        ensures empty { queue_lanes result ≡ empty_lanes }
        ensures alike { LooksLikeEachEmpty queue_rules result }
        ensures fills { FillsEmptyLanes queue_rules }
    {
        Queue { lanes: opened() }
    }
}

// The table with no frame in any lane.
fn opened() -> [ArrayVec<Frame, 8>; 64]
    ensures { AllOfLen (λ l. l.items ≡ []) result 64 }
{
    Default::default()
}

// Where a lane stands in the table, if there is one.
fn place(from: usize, to: usize) -> Option<usize>
    ensures { MatchOption result (is_lane from to ≡ false) (StandsAt from to) }
{
    if from < 8 && to < 8 {
        Some(8 * from + to)
    } else {
        None
    }
}

impl Medium for Queue {
    ghost use Rattle.std.specs.Prelude.{◌+◌, ◌*◌};
    ghost use Rattle.std.proofs.Common.{arith};
    ghost use Rattle.std.proofs.lemmas.Bool.{cond_both, cond-false};
    ghost use Rattle.medium.specs.Lanes.{Allowed, appended};
    ghost use Rattle.medium.specs.Held.{queue_count, queue_lanes, queue_puts, queue_takes, OutsideKept};
    ghost use Rattle.medium.specs.Tables.{all_few};

    ghost lanes = { queue_lanes };

    ghost puts = { queue_puts };

    ghost takes = { queue_takes };

    ghost few = { λ m p q.
        let few = all_few m.lanes m.few (8 * p + q) in
        cond_both (is_lane p q) _ [] (λ l. length l ≤ 64) (λ _. omega arith) (λ _. omega arith) };

    ghost outside = { λ m p q none. cond-false (is_lane p q) _ _ none };

    #[tactic(auto, using(crate::specs::Slots::pushed, crate::specs::Slots::push_count, crate::specs::Slots::unpushed))]
    fn put(&mut self, from: usize, to: usize, frame: Frame) -> usize
        ensures count { Allowed from to result }
        ensures after { queue_lanes self.new ≡ appended (queue_lanes self.old) from to frame result }
        ensures made { queue_puts self.old from to frame result self.new }
        ensures exact { result ≡ queue_count (queue_lanes self.old) from to }
        ensures outside { OutsideKept self.old from to self.new }
    {
        let Some(at) = place(from, to) else {
            return 0;
        };
        usize::from(self.lanes[at].try_push(frame).is_ok())
    }

    #[tactic(auto, using(crate::specs::Slots::popped))]
    fn take(&mut self, from: usize, to: usize) -> Option<Frame> {
        let at = place(from, to)?;
        self.lanes[at].pop_at(0)
    }

    fn waiting(&self, from: usize, to: usize) -> usize {
        match place(from, to) {
            Some(at) => self.lanes[at].len(),
            None => 0,
        }
    }
}
