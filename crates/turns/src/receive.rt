// The first half of a turn: taking what waits, replies before items.
ghost use Rattle.std.specs.Prelude.{◌≡◌, ◌+◌, ◌<◌, ◌≤◌, false, cond, length, replicate, slice_set, Some, None};
ghost use Rattle.protocol.specs.Frames.{brings, some_item, words_of};
ghost use Rattle.protocol.specs.Steps.{holdings, after_reply, after_item, frame_step, frames_step, emptied, received};
ghost use Rattle.protocol.specs.Steps.{lanes_step};
ghost use Rattle.medium.specs.Calls.{Calls, rules_of, take_call};
ghost use Rattle.turns.specs.Called.{take_calls};

use crate::board::BoardView;
use crate::link::{LinkView, bit_of};
use element::element::Element;
use element::words::Words;
use medium::frame::Frame;
use medium::medium::Medium;
use protocol::table::{Link, LinkTable};

// A reply that differs from the count's bit tells that one more item has arrived.
fn hear_reply(counts: &mut Link, items: usize, frame: &Frame)
    ensures { counts.new ≡ after_reply items frame.now counts.old }
{
    if counts.i < items && frame.reply != bit_of(counts.i) {
        counts.i += 1;
    }
}

// An item is accepted if it has the count's bit; answers its number and words then.
fn accept_item(counts: &mut Link, items: usize, frame: &Frame) -> Option<(usize, Words)>
    ensures after { counts.new ≡ after_item items frame.now counts.old }
    ensures value { result ≡ cond (brings items counts.old.j frame.now)
        (Some (counts.old.j, words_of frame.now.item)) None }
{
    let number = counts.j;
    let item = frame
        .item
        .filter(|item| number < items && item.bit == bit_of(number))?;
    counts.j += 1;
    Some((number, item.words))
}

// What a board has received in this turn: frames taken, items accepted, and from which boards an item came.
#[derive(Clone, Copy)]
pub(crate) struct Haul {
    pub(crate) taken: usize,
    pub(crate) accepted: usize,
    pub(crate) got: [bool; 8],
    ghost within: { accepted ≤ taken },
}

// One frame that came over the link: its reply, then its item.
// Kept: table and copies, with room for them, stay arguments here and in `take_lane`. Of a struct of `&mut`s each
// contract would say besides that every reference in it is the same as before.
fn take_frame<E: Element>(
    link: &LinkView,
    table: &mut LinkTable,
    copies: &mut [E],
    haul: &mut Haul,
    frame: &Frame,
)
    requires room { link.now.copies ≤ length copies.old }
    requires few { haul.old.taken < 576 }
    ensures held { holdings table.new.links copies.new haul.new.accepted ≡ frame_step
        E.Element.algebra link.now.ups.now link.now.downs.now link.now.to link.now.from frame.now
        (holdings table.old.links copies.old haul.old.accepted) }
    ensures taken { haul.new.taken ≡ haul.old.taken + 1 }
    ensures got { haul.new.got ≡ haul.old.got }
{
    haul.taken += 1;
    let items = link.items();
    hear_reply(&mut table.links[link.place_back()], items, frame);
    if let Some((number, words)) = accept_item(&mut table.links[link.place()], items, frame) {
        link.accept(copies, number, words);
        haul.accepted += 1;
    }
}

// All frames that wait in the link's lane.
#[tactic(auto, using(crate::proofs::Calling::one_call_more, crate::proofs::Calling::no_call_yet))]
fn take_lane<E: Element, D: Medium>(
    link: &LinkView,
    table: &mut LinkTable,
    medium: &mut D,
    copies: &mut [E],
    haul: &mut Haul,
)
    requires room { link.now.copies ≤ length copies.old }
    requires few { haul.old.taken ≤ 512 }
    ensures held { holdings table.new.links copies.new haul.new.accepted ≡ frames_step
        E.Element.algebra link.now.ups.now link.now.downs.now link.now.to link.now.from
        (D.Medium.lanes medium.old link.now.from link.now.to)
        (holdings table.old.links copies.old haul.old.accepted) }
    ensures lanes { D.Medium.lanes medium.new ≡ emptied link.now.from link.now.to (D.Medium.lanes medium.old) }
    ensures taken { haul.new.taken ≡ haul.old.taken + length (D.Medium.lanes medium.old link.now.from link.now.to) }
    ensures got { haul.new.got ≡ slice_set haul.old.got link.now.from
        (some_item (D.Medium.lanes medium.old link.now.from link.now.to)) }
    ensures calls { Calls (rules_of D.lanes D.takes D.puts) medium.old
        (replicate (length (D.lanes medium.old link.now.from link.now.to) + 1)
        (take_call link.now.from link.now.to)) medium.new }
    ensures few { haul.new.taken ≤ haul.old.taken + 64 }
{
    let mut item = false;
    while let Some(frame) = medium.take(link.from, link.to) {
        take_frame(link, table, copies, haul, &frame);
        item |= frame.item.is_some();
    }
    haul.got[link.from] = item;
}

impl BoardView<'_> {
    // The board takes all that waits for it, from the other boards in ascending order.
    pub(crate) fn receive<E: Element, D: Medium>(
        &self,
        table: &mut LinkTable,
        medium: &mut D,
        copies: &mut [E],
    ) -> Haul
        requires room { length self.now.plan.now.copies.now ≤ length copies.old }
        ensures after { received table.new.links copies.new result.accepted
            (D.Medium.lanes medium.new) result.taken result.got ≡ lanes_step E.Element.algebra
            self.now.plan.now.edges.now self.now.board self.now.plan.now.boards
            (received table.old.links copies.old 0 (D.Medium.lanes medium.old) 0 (replicate 8 false)) }
        ensures calls { Calls (rules_of D.lanes D.takes D.puts) medium.old
            (take_calls (D.lanes medium.old) self.now.board self.now.plan.now.boards) medium.new }
        ensures few { result.taken ≤ 512 }
    {
        let mut haul = Haul {
            taken: 0,
            accepted: 0,
            got: [false; 8],
        };
        // Kept: a `for` over boards' numbers; there is no slice of boards.
        for q in 0..self.plan.boards() {
            if q != self.board {
                take_lane(
                    &LinkView::of(self.plan, q, self.board),
                    table,
                    medium,
                    copies,
                    &mut haul,
                );
            }
        }
        haul
    }
}
