// Each line that a program prints.
ghost use Rattle.std.specs.Prelude.{◌≡◌};
ghost use Rattle.listing.specs.Held.{line_bytes};
ghost use Rattle.listing.specs.Lines.{plan_line, tally_line, board_line, copy_line, refusal_line};

use crate::line::Line;
use element::words::Words;
use plan::records::CopyRecord;
use protocol::tally::{Report, Tally};

// What the plan's line tells: the scene's numbers and how many records the plan has.
#[derive(Clone, Copy, PartialEq, Eq)]
pub struct PlanNumbers {
    pub boards: usize,
    pub overlap: usize,
    // Kept: a number, since an enum of the three kinds would take less from callers.
    pub kind: u8,
    pub copies: usize,
    pub edges: usize,
}

// Kept: no `Display`. `write!` tells its bytes only on `Ok`, and nothing tells when that is; a line cannot fail.
pub fn plan_line(plan: PlanNumbers) -> Line
    ensures { line_bytes result
        ≡ plan_line plan.boards plan.overlap plan.kind plan.copies plan.edges }
{
    let mut line = Line::new();
    line.field("boards ", plan.boards);
    line.field(" overlap ", plan.overlap);
    line.field(" kind ", plan.kind);
    line.field(" copies ", plan.copies);
    line.field(" edges ", plan.edges);
    line.text("\n");
    line
}

pub fn tally_line(tally: Tally) -> Line
    ensures { line_bytes result ≡ tally_line tally }
{
    let mut line = Line::new();
    line.field("turns ", tally.turns);
    line.field(" puts ", tally.puts);
    line.field(" lost ", tally.lost);
    line.field(" accepted ", tally.accepted);
    line.text("\n");
    line
}

pub fn board_line(board: usize, report: Report) -> Line
    ensures { line_bytes result ≡ board_line board report }
{
    let mut line = Line::new();
    line.number(board);
    match report {
        Report::Settled => line.text(" settled"),
        Report::Awaits { board: awaited, .. } => line.field(" awaits ", awaited),
    }
    line.text("\n");
    line
}

pub fn copy_line(copy: CopyRecord, words: Words) -> Line
    ensures { line_bytes result ≡ copy_line copy words }
{
    let mut line = Line::new();
    line.number(copy.board);
    line.field(" ", copy.vertex);
    line.field(" ", words.x);
    line.field(" ", words.y);
    line.field(" ", words.z);
    line.text("\n");
    line
}

pub fn refusal_line(number: usize, last: usize) -> Line
    ensures { line_bytes result ≡ refusal_line number last }
{
    let mut line = Line::new();
    line.field("refused ", number);
    line.field(" at ", last);
    line.text("\n");
    line
}
