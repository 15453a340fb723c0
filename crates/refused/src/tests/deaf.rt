// A medium that keeps no frame.
ghost use Rattle.medium.specs.Lanes.{empty_lanes};
ghost use Rattle.medium.specs.Puts.{Dropped};
ghost use Rattle.std.proofs.Common.{rules};

use medium::frame::Frame;
use medium::medium::Medium;

#[derive(Clone, Copy)]
pub struct Deaf;

impl Medium for Deaf {
    ghost lanes = { λ _. empty_lanes };

    ghost puts = { Dropped };

    ghost few = { Prim.search rules };

    ghost outside = { Prim.search rules };

    fn put(&mut self, _from: usize, _to: usize, _frame: Frame) -> usize {
        0
    }

    fn take(&mut self, _from: usize, _to: usize) -> Option<Frame> {
        None
    }

    fn waiting(&self, _from: usize, _to: usize) -> usize {
        0
    }
}
