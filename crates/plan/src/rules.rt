// The rules that each record of a plan keeps.
ghost use Rattle.std.specs.Prelude.{◌≡◌, ℕ, Bool, List};
ghost use Rattle.plan.specs.declared.records.CopyRecord.{CopyRecord};
ghost use Rattle.plan.specs.Sound.{copy_before, copy_fits, edge_before, edge_fits, is_copy};

use crate::records::{CopyRecord, Edge};

// Records that may make a plan.
#[derive(Clone, Copy)]
pub(crate) struct Records<'a> {
    pub(crate) boards: usize,
    pub(crate) copies: &'a [CopyRecord],
    pub(crate) edges: &'a [Edge],
}

impl Records<'_> {
    // Whether copy number `k` is there, and is the board's copy of the vertex.
    fn has_copy(&self, k: u16, board: u8, vertex: u16) -> bool
        ensures { result ≡ is_copy self.now.copies.now k board vertex }
    {
        self.copies.get(usize::from(k)) == Some(&CopyRecord { board, vertex })
    }
}

// A kind of record: which of them fit in a plan, and in which order they stand.
pub(crate) trait Record {
    ghost fits: { ℕ → List CopyRecord → Self → Bool };

    ghost before: { Self → Self → Bool };

    // Whether it fits, wherever it stands.
    fn fits(&self, plan: &Records) -> bool
        ensures { result ≡ fits plan.now.boards plan.now.copies.now self.now };

    // Whether the other may stand next.
    fn is_before(&self, next: &Self) -> bool
        ensures { result ≡ before self.now next.now };
}

impl Record for CopyRecord {
    ghost fits = { λ boards _. copy_fits boards };

    ghost before = { copy_before };

    fn fits(&self, plan: &Records) -> bool {
        usize::from(self.board) < plan.boards && self.vertex < 1024
    }

    fn is_before(&self, next: &CopyRecord) -> bool {
        self < next
    }
}

impl Record for Edge {
    ghost fits = { edge_fits };

    ghost before = { edge_before };

    fn fits(&self, plan: &Records) -> bool {
        usize::from(self.from) < plan.boards
            && usize::from(self.to) < plan.boards
            && self.vertex < 1024
            && self.from != self.to
            && plan.has_copy(self.leaf, self.from, self.vertex)
            && plan.has_copy(self.root, self.to, self.vertex)
    }

    fn is_before(&self, next: &Edge) -> bool {
        (self.from, self.to, self.vertex) < (next.from, next.to, next.vertex)
    }
}
