// A run that is over: what is reported of its boards, and what their copies hold.
ghost use Rattle.std.specs.Prelude.{◌≡◌, ◌<◌, ◌≤◌, ◌++◌, length, IfOk, OnOk};
ghost use Rattle.plan.specs.Starts.{values_on};
ghost use Rattle.cabinet.specs.Pages.{boards_page, head_page, page_of};

use crate::page::{add_board, add_line};
use element::element::Element;
use exchange::run::book::report_by_the_book;
use exchange::run::{Ended, Turning};
use listing::lines::{PlanNumbers, plan_line, tally_line};
use plan::view::PlanView;
use protocol::table::LinkTable;
use protocol::tally::{Report, Tally};
use std::alloc::{AllocError, Global};

// It has ended, all boards settled; or it goes on, and is given up.
#[derive(Clone, Copy)]
pub(crate) enum Outcome<'a> {
    Ended(&'a Ended),
    Open(&'a Turning),
}

#[derive(Drop)]
pub(crate) struct Run<'a, E> {
    pub outcome: Outcome<'a>,
    pub plan: &'a PlanView<'a>,
    pub table: &'a LinkTable,
    pub values: &'a [E],
    ghost room: { length plan.now.copies.now ≤ length values.now },
}

// The plan's line and the tally's.
fn add_head(page: &mut Vec<u8>, numbers: PlanNumbers, tally: Tally) -> Result<(), AllocError>
    ensures { OnOk result (page.new.items ≡ page.old.items
        ++ head_page numbers tally) }
{
    add_line(page, &plan_line(numbers))?;
    add_line(page, &tally_line(tally))
}

impl<'a, E: Element> Run<'a, E> {
    ghost use Rattle.cabinet.specs.Told.{run_report};

    // Kept: the bound of a board's number, here and in the two below; a type for such numbers would be no plainer.
    fn report(&self, board: usize) -> Report
        requires { board < self.now.plan.now.boards }
        ensures { result ≡ run_report self.now board }
    {
        match self.outcome {
            Outcome::Ended(_) => Report::Settled,
            Outcome::Open(turning) => {
                let Ok(report) = report_by_the_book::<E>(turning, self.plan, self.table, board)
                else {
                    unreachable!()
                };
                report
            }
        }
    }

    // An ended run shows a board's copies; those of one that goes on are read from the memory.
    fn shown(&self, board: usize) -> &'a [E]
        requires { board < self.now.plan.now.boards }
        ensures { result.now ≡ values_on self.now.plan.now.copies.now self.now.values.now board }
    {
        match self.outcome {
            Outcome::Ended(ended) => {
                let Ok(shown) = ended.show(self.plan, self.values, board) else {
                    unreachable!()
                };
                shown
            }
            Outcome::Open(_) => {
                let part = self.plan.board_part(board);
                &self.values[part.from..part.from + part.count]
            }
        }
    }

    fn add_board(&self, page: &mut Vec<u8>, board: usize) -> Result<(), AllocError>
        requires { board < self.now.plan.now.boards }
        ensures { OnOk result (page.new.items ≡ page.old.items
            ++ page_of E.Element.algebra
            (run_report self.now)
            self.now.plan.now.copies.now self.now.values.now board) }
    {
        let part = self.plan.board_part(board);
        let records = &self.plan.copies()[part.from..part.from + part.count];
        add_board(page, board, self.report(board), records, self.shown(board))
    }

    fn add_boards(&self, page: &mut Vec<u8>) -> Result<(), AllocError>
        ensures { OnOk result (page.new.items ≡ page.old.items
            ++ boards_page E.Element.algebra
            (run_report self.now)
            self.now.plan.now.copies.now self.now.values.now self.now.plan.now.boards) }
    {
        // Kept: a `for` over boards' numbers; there is no slice of boards.
        for board in 0..self.plan.boards() {
            self.add_board(page, board)?;
        }
        Ok(())
    }

    pub(crate) fn list(
        &self,
        heap: Global,
        numbers: PlanNumbers,
        tally: Tally,
    ) -> Result<Vec<u8>, AllocError>
        ensures { IfOk result (λ page. page.items ≡ head_page numbers tally
            ++ boards_page E.Element.algebra
            (run_report self.now)
            self.now.plan.now.copies.now self.now.values.now self.now.plan.now.boards) }
    {
        let mut page = Vec::new(heap);
        add_head(&mut page, numbers, tally)?;
        self.add_boards(&mut page)?;
        Ok(page)
    }
}
