// Writing the edges of a plan: for each leaf board one pass over the roots.
ghost use Rattle.std.specs.Prelude.{◌≡◌, ◌<◌, ◌≤◌, ◌++◌, length, drop};
ghost use Rattle.laying.specs.Filled.{HasRoom, Appends};
ghost use Rattle.laying.specs.Said.{ghost_at, edge_to_root, edges_from, all_edges};

use crate::filling::Filling;
use crate::root::Root;
use crate::tables::Tables;
use plan::records::Edge;

// A board whose copies are leaves: it has a ghost of each root on another board whose vertex it keeps.
#[derive(Clone, Copy)]
struct LeafBoard<'a> {
    tables: &'a Tables,
    board: usize,
    ghost low: { board < 8 },
}

impl LeafBoard<'_> {
    fn has_ghost(&self, root: Root) -> bool
        ensures { result ≡ ghost_at self.now.tables.now self.now.board root }
    {
        let kept = &self.tables.kept;
        usize::from(root.board) != self.board && kept[self.board][usize::from(root.vertex)]
    }

    // Appends the edge to a root, if the board has a ghost of it.
    fn write_edge(&self, root: Root, out: &mut Filling<Edge>)
        requires { HasRoom out.old (edge_to_root self.now.tables.now self.now.board root) }
        ensures { Appends out.old out.new (edge_to_root self.now.tables.now self.now.board root) }
    {
        let numbers = &self.tables.numbers;
        let v = usize::from(root.vertex);
        let edge = Edge {
            from: self.board as u8,
            to: root.board,
            vertex: root.vertex,
            leaf: numbers[self.board][v],
            root: numbers[usize::from(root.board)][v],
        };
        out.push_if(self.has_ghost(root), edge);
    }

    // Appends the edges from the board.
    fn write(&self, out: &mut Filling<Edge>)
        requires { HasRoom out.old (edges_from self.now.tables.now self.now.board) }
        ensures { Appends out.old out.new (edges_from self.now.tables.now self.now.board) }
    {
        // Kept: `iter()`; a loop over `&roots` has no place in its invariant, only what was yielded.
        for root in self.tables.roots.iter() {
            self.write_edge(*root, out);
        }
    }
}

impl Tables {
    // Kept: the bound of p; a type for the number of a board would be no plainer.
    fn leaf_board(&self, p: usize) -> LeafBoard<'_>
        requires { p < 8 }
        ensures tables { result.tables.now ≡ self.now }
        ensures board { result.board ≡ p }
    {
        LeafBoard {
            tables: self,
            board: p,
        }
    }

    // Writes the edges of all boards.
    pub(crate) fn write_edges(&self, edges: &mut [Edge])
        requires { length (all_edges self.now) ≤ length edges.old }
        ensures { edges.new
            ≡ all_edges self.now ++ drop (length (all_edges self.now)) edges.old }
    {
        let mut out = Filling::new(edges);
        // Kept: a `for` over boards' numbers; there is no slice of boards.
        for p in 0..self.boards {
            self.leaf_board(p).write(&mut out);
        }
    }
}
