// The records of a plan.
ghost use Rattle.std.specs.Prelude.{◌≡◌, nat_lt};
ghost use Rattle.plan.specs.Starts.{link_number};

// Board `board` keeps a copy of vertex `vertex`. Copies stand by board, then vertex.
#[derive(Clone, Copy, PartialEq, Eq, PartialOrd, Ord)]
pub struct CopyRecord {
    pub board: u8,
    pub vertex: u16,
}

// A ghost of board `from` and its root, on board `to`: the vertex, and the numbers of the two copies.
#[derive(Clone, Copy, PartialEq, Eq)]
pub struct Edge {
    pub from: u8,
    pub to: u8,
    pub vertex: u16,
    pub leaf: u16,
    pub root: u16,
}

impl CopyRecord {
    // Whether it is of a board below `p`.
    pub(crate) fn is_below(&self, p: usize) -> bool
        ensures { result ≡ nat_lt self.now.board p }
    {
        usize::from(self.board) < p
    }
}

impl Edge {
    // The number of its link.
    pub(crate) fn link(&self) -> usize
        ensures { result ≡ link_number self.now }
    {
        8 * usize::from(self.from) + usize::from(self.to)
    }
}
