// The second half of a turn: putting items and replies.
ghost use Rattle.std.specs.Prelude.{◌≡◌, ◌+◌, ◌<◌, ◌≤◌, ◌||◌, ◌==◌, [], ◌∷◌, true, false, length, cond};
ghost use Rattle.std.specs.Prelude.{nat_le, Some, None};
ghost use Rattle.medium.specs.Calls.{Calls, rules_of, put_call};
ghost use Rattle.medium.specs.Lanes.{appended};
ghost use Rattle.plan.specs.Links.{edges_between};
ghost use Rattle.protocol.specs.Runs.{accepted_in};
ghost use Rattle.protocol.specs.Turns.{all_others};
ghost use Rattle.protocol.specs.Steps.{Sent, due, due_frame, item_due, frame_due};
ghost use Rattle.turns.specs.Called.{put_calls};

use crate::board::BoardView;
use crate::link::{LinkView, bit_of};
use element::element::Element;
use medium::frame::{Frame, Item};
use medium::medium::Medium;
use protocol::table::LinkTable;

// A board that has received, at one of its links: what decides its next frame there.
#[derive(Drop)]
struct Sender<'a, E> {
    link: LinkView<'a>,
    // how many items are known to have arrived over the link, and how many of the link back were accepted
    arrived: usize,
    accepted: usize,
    // all that rises to this board was accepted
    gathered: bool,
    // an item came over the link back
    got: bool,
    copies: &'a [E],
    ghost room: { link.copies ≤ length copies.now },
}

impl<E: Element> Sender<'_, E> {
    // The item that is due, if any: the first that is not known to have arrived.
    fn next_item(&self) -> Option<Item>
        ensures { result ≡ (frame_due E.Element.algebra self.now.link.ups.now self.now.link.downs.now
            self.now.arrived self.now.accepted self.now.gathered self.now.copies.now).item }
    {
        if !self.link.wants(self.arrived, self.gathered) {
            return None;
        }
        Some(Item {
            bit: bit_of(self.arrived),
            words: self.link.item_value(self.copies, self.arrived).pack(),
        })
    }

    // The frame that is due, if any: an item, or a reply to items that came.
    fn next_frame(&self) -> Option<Frame>
        ensures { result ≡ cond (item_due self.now.link.ups.now self.now.link.downs.now self.now.arrived
            self.now.gathered || self.now.got)
            (Some (frame_due E.Element.algebra self.now.link.ups.now self.now.link.downs.now
            self.now.arrived self.now.accepted self.now.gathered self.now.copies.now)) None }
    {
        let item = self.next_item();
        let reply = bit_of(self.accepted);
        (item.is_some() || self.got).then_some(Frame { reply, item })
    }

    // Puts what is due, if anything, and answers how many frames it left.
    #[tactic(auto, using(crate::proofs::Calling::put_if_due, crate::proofs::Calling::no_put_if_none))]
    fn speak<D: Medium>(&self, medium: &mut D) -> Option<usize>
        ensures lanes { let is_due = item_due self.now.link.ups.now self.now.link.downs.now self.now.arrived
            self.now.gathered || self.now.got in
            elim result [
              | None ↦ (is_due ≡ false) × (D.Medium.lanes medium.new ≡ D.Medium.lanes medium.old)
              | Some k ↦ (is_due ≡ true) × (D.Medium.lanes medium.new
                  ≡ appended (D.Medium.lanes medium.old) self.now.link.from self.now.link.to
                  (frame_due E.Element.algebra self.now.link.ups.now self.now.link.downs.now
                  self.now.arrived self.now.accepted self.now.gathered self.now.copies.now) k)
            ] }
        ensures calls { Calls (rules_of D.lanes D.takes D.puts) medium.old
            (cond (item_due self.now.link.ups.now self.now.link.downs.now self.now.arrived
            self.now.gathered || self.now.got)
            (put_call self.now.link.from self.now.link.to
            (frame_due E.algebra self.now.link.ups.now self.now.link.downs.now
            self.now.arrived self.now.accepted self.now.gathered self.now.copies.now) ∷ []) [])
            medium.new }
    {
        let frame = self.next_frame()?;
        Some(medium.put(self.link.from, self.link.to, frame))
    }
}

// Whether all that rises along the link was accepted.
fn all_risen(link: &LinkView, table: &LinkTable) -> bool
    ensures { result ≡ nat_le (length link.now.ups.now) (accepted_in table.now.links link.now.from link.now.to) }
{
    link.ups.len() <= link.counts(table).j
}

// How many puts were made, and how many of them left no frame.
#[derive(Clone, Copy)]
pub(crate) struct Puts {
    pub(crate) made: usize,
    pub(crate) lost: usize,
    ghost within: { lost ≤ made },
}

impl Puts {
    // One put more, which left so many frames.
    fn add(&mut self, left: usize)
        requires { self.old.made < 8 }
        ensures made { self.new.made ≡ self.old.made + 1 }
        ensures lost { self.new.lost ≡ self.old.lost + cond (left == 0) 1 0 }
    {
        self.made += 1;
        if left == 0 {
            self.lost += 1;
        }
    }
}

impl BoardView<'_> {
    // Whether the board has accepted all that rises to it.
    fn has_gathered(&self, table: &LinkTable) -> bool
        ensures { result ≡ all_others self.now.board self.now.plan.now.boards
            (λ q. nat_le (length (edges_between self.now.plan.now.edges.now q self.now.board))
            (accepted_in table.now.links q self.now.board)) }
    {
        let mut gathered = true;
        // Kept: a `for` and no `all`: no proof names a step of it, so that a wrong test shows here.
        for q in 0..self.plan.boards() {
            gathered &= q == self.board
                || all_risen(&LinkView::of(self.plan, q, self.board), table);
        }
        gathered
    }

    // The board puts what is due to each other board, in ascending order.
    pub(crate) fn send<E: Element, D: Medium>(
        &self,
        table: &LinkTable,
        medium: &mut D,
        copies: &[E],
        got: &[bool; 8],
    ) -> Puts
        requires room { length self.now.plan.now.copies.now ≤ length copies.now }
        ensures after { Sent self.now.board (due E.Element.algebra self.now.plan.now.boards
            self.now.plan.now.edges.now self.now.board table.now.links got.now)
            (due_frame E.Element.algebra self.now.plan.now.boards self.now.plan.now.edges.now self.now.board
            table.now.links copies.now) (D.Medium.lanes medium.old)
            self.now.plan.now.boards (D.Medium.lanes medium.new) result.made result.lost }
        ensures calls { Calls (rules_of D.lanes D.takes D.puts) medium.old
            (put_calls (due E.algebra self.now.plan.now.boards
            self.now.plan.now.edges.now self.now.board table.now.links got.now)
            (due_frame E.algebra self.now.plan.now.boards self.now.plan.now.edges.now self.now.board
            table.now.links copies.now) self.now.board self.now.plan.now.boards) medium.new }
        ensures few { result.made ≤ 8 }
    {
        let gathered = self.has_gathered(table);
        let mut puts = Puts { made: 0, lost: 0 };
        // Kept: a `for` over boards' numbers; there is no slice of boards.
        for q in 0..self.plan.boards() {
            if q == self.board {
                continue;
            }
            let link = LinkView::of(self.plan, self.board, q);
            let sender = Sender {
                link,
                arrived: link.counts(table).i,
                accepted: link.counts_back(table).j,
                gathered,
                got: got[q],
                copies,
            };
            if let Some(left) = sender.speak(medium) {
                puts.add(left);
            }
        }
        puts
    }
}
