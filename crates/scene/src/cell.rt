// Checks the record of one cell.
ghost use Rattle.std.specs.Prelude.{◌≡◌, ◌+◌, ◌*◌, ◌<◌, ◌≤◌, length};
ghost use Rattle.std.specs.List.{range_with_len, flat_map};
ghost use Rattle.scene.specs.Layout.{cell_place, cell_size};
ghost use Rattle.scene.specs.Rules.{verdict, start_rules, corner_rule, pair_rule, pair_rules, word_rule, cell_rules};

use crate::bytes::{byte_at, is_marked};
use crate::fault::RecordFault;
use crate::head::Head;
use crate::loops::first_fault;
use crate::marks;
use crate::record::{CellRecord, cell_place, cell_size};

// A cell's record, and what the header says of it.
#[derive(Clone, Copy)]
pub(crate) struct CellCheck<'a> {
    pub cell: CellRecord<'a>,
    pub head: Head,
    ghost corners: { cell.corners ≡ head.corners },
}

impl<'a> CellCheck<'a> {
    // Of cell number n.
    fn new(bytes: &'a [u8], head: Head, n: u16) -> CellCheck<'a>
        requires { cell_place head.corners n + cell_size head.corners ≤ length bytes.now }
        ensures { (result.cell.bytes.now ≡ bytes.now)
            × (result.cell.at ≡ cell_place head.corners n)
            × (result.head ≡ head) }
    {
        CellCheck {
            cell: CellRecord::new(bytes, head.corners, n),
            head,
        }
    }

    // Mark, board and zero byte: that the bytes are there was checked before there was a record.
    fn start(&self) -> Result<(), RecordFault>
        ensures { result ≡ verdict (start_rules self.now.head self.now.cell.bytes.now self.now.cell.at) }
    {
        let CellRecord { bytes, at, .. } = self.cell;
        if !is_marked(bytes, at, marks::CELL) {
            return Err(RecordFault::Mark { place: at });
        }
        if self.cell.board() >= self.head.boards {
            return Err(RecordFault::Cell { place: at + 2 });
        }
        if byte_at(bytes, at + 3) != 0 {
            return Err(RecordFault::Cell { place: at + 3 });
        }
        Ok(())
    }

    fn corner(&self, i: u16) -> Result<(), RecordFault>
        requires { i < self.now.head.corners }
        ensures { result ≡ verdict (corner_rule self.now.head self.now.cell.bytes.now self.now.cell.at i) }
    {
        if self.cell.corner(i) >= self.head.vertices {
            return Err(RecordFault::Cell {
                place: self.cell.corner_place(i),
            });
        }
        Ok(())
    }

    // The place of a pair of equal corners is the later one's.
    fn pair(&self, i: u16, j: u16) -> Result<(), RecordFault>
        requires { (i < self.now.head.corners) × (j < self.now.head.corners) }
        ensures { result ≡ verdict (pair_rule self.now.cell.bytes.now self.now.cell.at i j) }
    {
        if self.cell.corner(i) == self.cell.corner(j) {
            return Err(RecordFault::Corners {
                place: self.cell.corner_place(j),
            });
        }
        Ok(())
    }

    // One corner against the later ones.
    fn pairs(&self, i: u16) -> Result<(), RecordFault>
        requires { i < self.now.head.corners }
        ensures { result ≡ verdict (pair_rules self.now.head self.now.cell.bytes.now self.now.cell.at i) }
    {
        let corners = u16::from(self.head.corners);
        first_fault(i + 1..corners, |j| self.pair(i, j))
    }

    // Word number w of the contributions is zero if it is past the used ones of its corner.
    fn word(&self, w: u16) -> Result<(), RecordFault>
        requires { w < 3 * self.now.head.corners }
        ensures { result ≡ verdict (word_rule self.now.head self.now.cell.bytes.now self.now.cell.at w) }
    {
        if usize::from(w % 3) >= self.head.used && self.cell.word(w) != 0 {
            return Err(RecordFault::Word {
                place: self.cell.word_place(w),
            });
        }
        Ok(())
    }

    fn corners(&self) -> Result<(), RecordFault>
        ensures { result ≡ verdict (flat_map
            (corner_rule self.now.head self.now.cell.bytes.now self.now.cell.at)
            (range_with_len 0 self.now.head.corners)) }
    {
        first_fault(0..u16::from(self.head.corners), |i| self.corner(i))
    }

    fn apart(&self) -> Result<(), RecordFault>
        ensures { result ≡ verdict (flat_map
            (pair_rules self.now.head self.now.cell.bytes.now self.now.cell.at)
            (range_with_len 0 self.now.head.corners)) }
    {
        first_fault(0..u16::from(self.head.corners), |i| self.pairs(i))
    }

    fn words(&self) -> Result<(), RecordFault>
        ensures { result ≡ verdict (flat_map
            (word_rule self.now.head self.now.cell.bytes.now self.now.cell.at)
            (range_with_len 0 (3 * self.now.head.corners))) }
    {
        first_fault(0..3 * u16::from(self.head.corners), |w| self.word(w))
    }

    fn all(&self) -> Result<(), RecordFault>
        ensures { result ≡ verdict (cell_rules self.now.head self.now.cell.bytes.now self.now.cell.at) }
    {
        self.start()?;
        self.corners()?;
        self.apart()?;
        self.words()
    }
}

// All rules of cell number n: first that its bytes are there.
pub(crate) fn check_cell(bytes: &[u8], head: Head, n: u16) -> Result<(), RecordFault>
    ensures { result ≡ verdict (cell_rules head bytes.now (cell_place head.corners n)) }
{
    let at = cell_place(head.corners, n);
    if bytes.len() < at + cell_size(head.corners) {
        return Err(RecordFault::Short { place: at });
    }
    CellCheck::new(bytes, head, n).all()
}
