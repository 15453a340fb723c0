// What travels over a lane: a reply, and perhaps an item.
use element::words::Words;

#[derive(Clone, Copy)]
pub struct Item {
    pub bit: bool,
    pub words: Words,
}

#[derive(Clone, Copy, Default)]
pub struct Frame {
    pub reply: bool,
    pub item: Option<Item>,
}
