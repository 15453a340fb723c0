// The edges of a link, and a board's copies.
ghost use Rattle.std.specs.Prelude.{◌≡◌, ℕ, ◌+◌, ◌*◌, ◌<◌, ◌≤◌, length, take, drop};
ghost use Rattle.plan.specs.Links.{edges_between};
ghost use Rattle.plan.specs.Starts.{copies_on, copies_before};

use super::PlanView;
use crate::parts::Part;
use crate::records::Edge;

impl<'a> PlanView<'a> {
    // The edges from leaf board `p` to root board `q`; none where no plan has such boards.
    pub fn edges_between(&self, p: usize, q: usize) -> &'a [Edge]
        ensures { result.now ≡ edges_between self.now.edges.now p q }
    {
        if p >= 8 || q >= 8 {
            return &[];
        }
        self.on_link(8 * p + q)
    }

    // A link's edges: from its start to the next.
    fn on_link(&self, link: usize) -> &'a [Edge]
        requires { link < 64 }
        ensures { (p q : ℕ) → q < 8 → link ≡ 8 * p + q
            → result.now ≡ edges_between self.now.edges.now p q }
    {
        let edges = self.edges;
        &edges[self.starts[link]..self.starts[link + 1]]
    }

    // Which of the copies are board `p`'s.
    pub fn board_part(&self, p: usize) -> Part
        ensures from { result.from ≡ copies_before self.now.copies.now p }
        ensures count { result.count ≡ length (copies_on self.now.copies.now p) }
        ensures part { take result.count (drop result.from self.now.copies.now)
            ≡ copies_on self.now.copies.now p }
        ensures within { result.from + result.count ≤ length self.now.copies.now }
    {
        let copies = self.copies;
        let from = copies.partition_point(|copy| copy.is_below(p));
        let end = copies.partition_point(|copy| usize::from(copy.board) <= p);
        Part {
            from,
            count: end - from,
        }
    }
}
