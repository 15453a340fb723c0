// A board of a plan.
ghost use Rattle.std.specs.Prelude.{◌<◌};

use plan::view::PlanView;

#[derive(Clone, Copy)]
pub(crate) struct BoardView<'a> {
    pub(crate) plan: &'a PlanView<'a>,
    pub(crate) board: usize,
    ghost of_plan: { board < plan.now.boards },
}
