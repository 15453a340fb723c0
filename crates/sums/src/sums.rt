// A table of what each board's own cells bring to each vertex.
ghost use Rattle.std.specs.Prelude.{◌≡◌, ℕ, ◌+◌, ◌<◌, ◌++◌, length, take, drop, None};
ghost use Rattle.scene.specs.Read.{board_of, corner_of, part_of};
ghost use Rattle.scene.specs.Sums.{own_sum};
ghost use Rattle.scene.specs.Views.{viewed};
ghost use Rattle.sums.specs.Sums.{table_size, place_of, sum_at, corner_joined, HoldsSums};
ghost use Rattle.sums.specs.Sums.{load_fault, loaded_copies};

use element::element::Element;
use element::words::Words;
use plan::records::CopyRecord;
use plan::view::PlanView;
use scene::view::SceneView;
use std::marker::PhantomData;

// The own sums of all boards, by board and then vertex. They stand as words, whose size is known, as that of a
// type parameter is not.
// Kept: an array, since loading refuses another kind and short memory, and may not fail for memory of its own.
#[derive(Drop)]
struct OwnSums<E: Element> {
    words: [Words; 8192],
    element: PhantomData<E>,
}

// Where the sum of a board at a vertex stands.
fn place(board: usize, vertex: usize) -> usize
    requires { (board < 8) × (vertex < 1024) }
    ensures place { result ≡ place_of board vertex }
    ensures within { result < table_size }
{
    1024 * board + vertex
}

impl<E: Element> OwnSums<E> {
    // Joins what cell c contributes at its corner k, if there is such a corner.
    fn add_corner(&mut self, scene: &SceneView, c: usize, k: usize) -> Option<()>
        ensures { self.new.words ≡ corner_joined E.Element.algebra
            (board_of (viewed scene.now) c) (corner_of (viewed scene.now) c k)
            (part_of (viewed scene.now) c k) self.old.words }
    {
        let board = scene.cell_board(c)?;
        let vertex = scene.corner(c, k)?;
        let words = scene.contribution(c, k)?;
        let at = place(board, vertex);
        self.words[at] = E::unpack(self.words[at]).join(E::unpack(words)).pack();
        Some(())
    }

    // Joins what cell c contributes.
    // Kept: counted loops here and below, since a view reads cells and corners by number and has no slice of them.
    fn add_cell(&mut self, scene: &SceneView, c: usize)
        requires cell { c < length (viewed scene.now).cells }
        requires before { HoldsSums E.Element.algebra (take c (viewed scene.now).cells) self.old.words }
        ensures { HoldsSums E.Element.algebra (take (c + 1) (viewed scene.now).cells) self.new.words }
    {
        for k in 0..scene.corners() {
            let _ = self.add_corner(scene, c, k);
        }
    }

    // The sum of no contributions.
    fn no_sum() -> Words
        ensures { result ≡ E.Element.algebra.pack E.Element.algebra.zero }
    {
        E::zero().pack()
    }

    // The own sums of all boards.
    fn of_scene(scene: &SceneView) -> OwnSums<E>
        ensures { (p v : ℕ) → p < 8 → v < 1024
            → sum_at E.Element.algebra result.words p v ≡ own_sum E.Element.algebra (viewed scene.now) p v }
    {
        let mut sums = OwnSums {
            words: [Self::no_sum(); 8192],
            element: PhantomData,
        };
        for c in 0..scene.cells() {
            sums.add_cell(scene, c);
        }
        sums
    }

    // The sum that belongs to a copy.
    fn of_copy(&self, copy: CopyRecord) -> E
        requires { (copy.board < 8) × (copy.vertex < 1024) }
        ensures { result ≡ sum_at E.Element.algebra self.now.words copy.board copy.vertex }
    {
        E::unpack(self.words[place(usize::from(copy.board), usize::from(copy.vertex))])
    }
}

// Sets each copy of the plan to its board's own sum, where nothing is against it.
pub(crate) fn set_own_sums<E: Element>(scene: &SceneView, plan: &PlanView, copies: &mut [E])
    requires { load_fault E.Element.algebra (viewed scene.now) plan.now.copies.now copies.old ≡ None }
    ensures { copies.new
        ≡ loaded_copies E.Element.algebra (viewed scene.now) plan.now.copies.now
        ++ drop (length plan.now.copies.now) copies.old }
{
    let sums = OwnSums::of_scene(scene);
    // Kept: written by the record's number; `iter_mut` with the records by number is no plainer, and under a `zip` a
    // proof knows only the length.
    for (n, record) in plan.copies().iter().enumerate() {
        copies[n] = sums.of_copy(*record);
    }
}
