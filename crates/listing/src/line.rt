// A line of text in memory of its own.
ghost use Rattle.std.specs.Prelude.{◌≡◌, ◌≤◌, length};

mod placing;
mod writing;

// The first `len` of `bytes`. No line has more than five numbers of 20 digits and 38 bytes besides.
// Kept: as an `ArrayString`, which has a model, a line could not be copied within an `Option` or a struct.
#[derive(Clone, Copy)]
pub struct Line {
    bytes: [u8; 160],
    len: usize,
    ghost room: { length bytes ≡ 160 },
    ghost within: { len ≤ 160 },
}

// There is no room for a line of so many bytes.
#[derive(Clone, Copy, PartialEq, Eq)]
pub struct NoRoom {
    pub needed: usize,
}
