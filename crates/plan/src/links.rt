// Where each link's edges begin.
ghost use Rattle.std.specs.Prelude.{◌≡◌, ◌+◌, ◌<◌, true, length, nat_eq, slice_index_or};
ghost use Rattle.plan.specs.declared.records.Edge.{Edge};
ghost use Rattle.plan.specs.Sound.{sound_plan};
ghost use Rattle.plan.specs.Starts.{edges_before, link_number, Starts};

use crate::rules::Records;

impl Records<'_> {
    // Whether the edge with this number is of the link.
    fn is_of(&self, k: usize, link: usize) -> bool
        requires { k < length self.now.edges.now }
        ensures { (none : Edge) → result
            ≡ nat_eq (link_number (slice_index_or self.now.edges.now k none)) link }
    {
        self.edges[k].link() == link
    }

    // Where the edges of a link end, by where they begin; in a plan they stand by link.
    fn link_end(&self, link: usize, start: usize) -> usize
        requires sound { sound_plan self.now.boards self.now.copies.now self.now.edges.now ≡ true }
        requires begins { start ≡ edges_before self.now.edges.now link }
        ensures { result ≡ edges_before self.now.edges.now (link + 1) }
    {
        let end = self.edges.len();
        (start..end).find(|&k| !self.is_of(k, link)).unwrap_or(end)
    }

    // For each link, how many edges come before it.
    // Kept: a counted loop, since each start is where the one before it ends.
    pub(crate) fn link_starts(&self) -> [usize; 65]
        requires { sound_plan self.now.boards self.now.copies.now self.now.edges.now ≡ true }
        ensures { Starts result self.now.edges.now }
    {
        let mut starts = [0; 65];
        for link in 0..64 {
            starts[link + 1] = self.link_end(link, starts[link]);
        }
        starts
    }
}
