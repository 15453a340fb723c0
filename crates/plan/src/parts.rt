// A part of a list.

// Where a part of a list begins, and how many records it has.
// Kept: no `Range`, whose length callers would compute again.
#[derive(Clone, Copy, PartialEq, Eq)]
pub struct Part {
    pub from: usize,
    pub count: usize,
}
