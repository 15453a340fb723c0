// A link of a plan, from one board to another: the items that it carries, and where its counts stand.
ghost use Rattle.std.specs.Prelude.{◌≡◌, ◌+◌, ◌*◌, ◌<◌, ◌≤◌, length};
ghost use Rattle.plan.specs.Links.{edges_between};
ghost use Rattle.protocol.specs.Frames.{odd};
ghost use Rattle.protocol.specs.Runs.{link_at};
ghost use Rattle.protocol.specs.Steps.{Fit, accepted_copies, item_due, item_value};

use element::element::Element;
use element::words::Words;
use plan::records::Edge;
use plan::view::PlanView;
use protocol::table::{Link, LinkTable};

// A count's bit.
pub(crate) fn bit_of(count: usize) -> bool
    ensures { result ≡ odd count }
{
    count % 2 == 1
}

// The leaves of `ups` rise along it, then the roots of `downs` come down along it; they are copies below `copies`.
#[derive(Clone, Copy)]
pub(crate) struct LinkView<'a> {
    pub(crate) from: usize,
    pub(crate) to: usize,
    pub(crate) ups: &'a [Edge],
    pub(crate) downs: &'a [Edge],
    copies: usize,
    ghost boards: { (from < 8) × (to < 8) },
    ghost fit: { Fit ups.now downs.now copies },
}

impl<'a> LinkView<'a> {
    pub(crate) fn of(plan: &PlanView<'a>, from: usize, to: usize) -> LinkView<'a>
        requires { (from < plan.now.boards) × (to < plan.now.boards) }
        ensures ends { (result.from ≡ from) × (result.to ≡ to) }
        ensures ups { result.ups.now ≡ edges_between plan.now.edges.now from to }
        ensures downs { result.downs.now ≡ edges_between plan.now.edges.now to from }
        ensures copies { result.copies ≡ length plan.now.copies.now }
    {
        LinkView {
            from,
            to,
            ups: plan.edges_between(from, to),
            downs: plan.edges_between(to, from),
            copies: plan.copies().len(),
        }
    }

    // Where this link's counts stand in the table.
    pub(crate) fn place(&self) -> usize
        ensures value { result ≡ 8 * self.now.from + self.now.to }
        ensures within { result < 64 }
    {
        8 * self.from + self.to
    }

    // Where those of the link back stand.
    pub(crate) fn place_back(&self) -> usize
        ensures value { result ≡ 8 * self.now.to + self.now.from }
        ensures within { result < 64 }
    {
        8 * self.to + self.from
    }

    pub(crate) fn counts(&self, table: &LinkTable) -> Link
        ensures { result ≡ link_at table.now.links self.now.from self.now.to }
    {
        table.links[self.place()]
    }

    pub(crate) fn counts_back(&self, table: &LinkTable) -> Link
        ensures { result ≡ link_at table.now.links self.now.to self.now.from }
    {
        table.links[self.place_back()]
    }

    // How many items the link carries.
    pub(crate) fn items(&self) -> usize
        ensures { result ≡ length self.now.ups.now + length self.now.downs.now }
    {
        self.ups.len() + self.downs.len()
    }

    // Whether item `i` is sent: a root waits until all has gathered.
    pub(crate) fn wants(&self, i: usize, gathered: bool) -> bool
        ensures { result ≡ item_due self.now.ups.now self.now.downs.now i gathered }
    {
        i < self.items() && (i < self.ups.len() || gathered)
    }

    // Item `i`: the leaf that rises, or the root that comes down.
    pub(crate) fn item_value<E: Element>(&self, copies: &[E], i: usize) -> E
        requires room { self.now.copies ≤ length copies.now }
        requires below { i < length self.now.ups.now + length self.now.downs.now }
        ensures { result ≡ item_value E.Element.algebra self.now.ups.now self.now.downs.now i copies.now }
    {
        if i < self.ups.len() {
            copies[usize::from(self.ups[i].leaf)]
        } else {
            copies[usize::from(self.downs[i - self.ups.len()].root)]
        }
    }

    // Item `i` arrives: it is joined into the root it rises to, or put in the place of the leaf it comes down to.
    pub(crate) fn accept<E: Element>(&self, copies: &mut [E], i: usize, words: Words)
        requires room { self.now.copies ≤ length copies.old }
        requires below { i < length self.now.ups.now + length self.now.downs.now }
        ensures { copies.new ≡ accepted_copies E.Element.algebra self.now.ups.now self.now.downs.now i words
            copies.old }
    {
        let value = E::unpack(words);
        if i < self.ups.len() {
            let root = usize::from(self.ups[i].root);
            copies[root] = copies[root].join(value);
        } else {
            let leaf = usize::from(self.downs[i - self.ups.len()].leaf);
            copies[leaf] = value;
        }
    }
}
