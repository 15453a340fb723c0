// The record of one cell among the bytes of a scene: mark, board, zero byte, corners, contributions.
ghost use Rattle.std.specs.Prelude.{◌≡◌, ◌+◌, ◌*◌, ◌^◌, ◌<◌, ◌≤◌, length};
ghost use Rattle.scene.specs.Layout.{byte_at, number_at, word_at, words_at, cell_size, cell_place};
ghost use Rattle.scene.specs.Layout.{corner_place, parts_place, word_place};

use crate::bytes::{byte_at, number_at, word_at, words_at};
use element::words::Words;

// It begins at the byte `at`. How many corners a cell has, the header says. All its bytes are there, so that no reader
// need ask.
#[derive(Clone, Copy)]
pub(crate) struct CellRecord<'a> {
    pub bytes: &'a [u8],
    pub at: usize,
    pub corners: u8,
    ghost room: { at + cell_size corners ≤ length bytes.now },
}

// How many bytes the record of a cell of so many corners has.
pub(crate) fn cell_size(corners: u8) -> usize
    ensures { result ≡ cell_size corners }
{
    4 + 14 * usize::from(corners)
}

// Where the record of cell number n begins, behind the header's 10 bytes.
pub(crate) fn cell_place(corners: u8, n: u16) -> usize
    ensures place { result ≡ cell_place corners n }
    ensures low { result < 2 ^ 31 }
{
    10 + usize::from(n) * cell_size(corners)
}

impl<'a> CellRecord<'a> {
    // The record of cell number n.
    pub(crate) fn new(bytes: &'a [u8], corners: u8, n: u16) -> CellRecord<'a>
        requires { cell_place corners n + cell_size corners ≤ length bytes.now }
        ensures { (result.bytes.now ≡ bytes.now) × (result.at ≡ cell_place corners n) × (result.corners ≡ corners) }
    {
        CellRecord {
            bytes,
            at: cell_place(corners, n),
            corners,
        }
    }

    // The board that owns the cell.
    pub(crate) fn board(&self) -> u8
        ensures { result ≡ byte_at self.now.bytes.now (self.now.at + 2) }
    {
        byte_at(self.bytes, self.at + 2)
    }

    pub(crate) fn corner_place(&self, i: u16) -> usize
        requires { i < self.now.corners }
        ensures { result ≡ corner_place self.now.at i }
    {
        self.at + 4 + 2 * usize::from(i)
    }

    // Corner number i.
    pub(crate) fn corner(&self, i: u16) -> u16
        requires { i < self.now.corners }
        ensures { result ≡ number_at self.now.bytes.now (corner_place self.now.at i) }
    {
        number_at(self.bytes, self.corner_place(i))
    }

    // Where its contributions begin, three words to a corner.
    pub(crate) fn parts_place(&self) -> usize
        ensures { result ≡ parts_place self.now.corners self.now.at }
    {
        self.at + 4 + 2 * usize::from(self.corners)
    }

    pub(crate) fn word_place(&self, w: u16) -> usize
        requires { w < 3 * self.now.corners }
        ensures { result ≡ word_place self.now.corners self.now.at w }
    {
        self.parts_place() + 4 * usize::from(w)
    }

    // Word number w of them.
    pub(crate) fn word(&self, w: u16) -> u32
        requires { w < 3 * self.now.corners }
        ensures { result ≡ word_at self.now.bytes.now (word_place self.now.corners self.now.at w) }
    {
        word_at(self.bytes, self.word_place(w))
    }

    // The contribution at corner number i.
    pub(crate) fn part(&self, i: u16) -> Words
        requires { i < self.now.corners }
        ensures { result ≡ words_at self.now.bytes.now (parts_place self.now.corners self.now.at + 12 * i) }
    {
        words_at(self.bytes, self.parts_place() + 12 * usize::from(i))
    }
}
