// Lines, one after the other.
ghost use Rattle.std.specs.Prelude.{◌≡◌, ◌++◌, OnOk};
ghost use Rattle.listing.specs.Held.{line_bytes};
ghost use Rattle.cabinet.specs.Pages.{copies_page, board_page};

use element::element::Element;
use listing::line::Line;
use listing::lines::{board_line, copy_line};
use plan::records::CopyRecord;
use protocol::tally::Report;
use std::alloc::AllocError;

pub(crate) fn add_line(page: &mut Vec<u8>, line: &Line) -> Result<(), AllocError>
    ensures { OnOk result (page.new.items ≡ page.old.items
        ++ line_bytes line.now) }
{
    page.extend_from_slice(line.bytes())
}

// A line for each copy, with what it holds.
fn add_copies<E: Element>(
    page: &mut Vec<u8>,
    records: &[CopyRecord],
    values: &[E],
) -> Result<(), AllocError>
    ensures { OnOk result (page.new.items ≡ page.old.items
        ++ copies_page E.Element.algebra records.now values.now) }
{
    for (record, value) in records.iter().zip(values.iter()) {
        add_line(page, &copy_line(*record, value.pack()))?;
    }
    Ok(())
}

// A board's own line, then its copies.
pub(crate) fn add_board<E: Element>(
    page: &mut Vec<u8>,
    board: usize,
    report: Report,
    records: &[CopyRecord],
    values: &[E],
) -> Result<(), AllocError>
    ensures { OnOk result (page.new.items ≡ page.old.items
        ++ board_page E.Element.algebra board report records.now values.now) }
{
    add_line(page, &board_line(board, report))?;
    add_copies(page, records, values)
}
