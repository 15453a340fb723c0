// A view of a plan's records.
ghost use Rattle.std.specs.Prelude.{◌≡◌, true};
ghost use Rattle.plan.specs.Sound.{sound_plan};
ghost use Rattle.plan.specs.Starts.{Starts};

use crate::records::{CopyRecord, Edge};

mod making;
mod reading;
mod selecting;

// Records that keep the rules of a plan, and where each link's edges begin.
#[derive(Clone, Copy)]
pub struct PlanView<'a> {
    boards: usize,
    copies: &'a [CopyRecord],
    edges: &'a [Edge],
    // Kept: an array, as this crate has no heap; for each of 64 links, and past the last.
    starts: [usize; 65],
    ghost sound: { sound_plan boards copies.now edges.now ≡ true },
    ghost placed: { Starts starts edges.now },
}
