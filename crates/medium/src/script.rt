// A medium over any medium that passes, drops or doubles its puts, by a table.
ghost use Rattle.std.specs.Prelude.{◌≡◌, ◌<◌, length};
ghost use Rattle.medium.specs.Lanes.{Allowed, appended, first, shortened};
ghost use Rattle.medium.specs.Puts.{Doubled};
ghost use Rattle.medium.specs.Fates.{code, entry, script_table};

use crate::frame::Frame;
use crate::medium::Medium;

// What becomes of a put.
#[derive(Clone, Copy)]
pub enum Fate {
    Pass,
    Drop,
    Twice,
}

// Kept: a table by the put's number is what the rule says.
const TABLE: [Fate; 16] = [
    Fate::Drop,
    Fate::Pass,
    Fate::Pass,
    Fate::Twice,
    Fate::Pass,
    Fate::Drop,
    Fate::Pass,
    Fate::Pass,
    Fate::Twice,
    Fate::Pass,
    Fate::Pass,
    Fate::Drop,
    Fate::Pass,
    Fate::Pass,
    Fate::Pass,
    Fate::Twice,
];

// The table's entry n.
fn fate_of(n: usize) -> Fate
    requires { n < length script_table }
    ensures { code result ≡ entry n }
{
    TABLE[n]
}

#[derive(Drop)]
pub struct Script<M> {
    below: M,
    // The number of the next put, modulo the table's length.
    // Kept: counted, since an iterator round the table is no plainer: the specs go by the entry's number.
    next: usize,
    ghost ok: { next < length script_table },
}

impl<M: Medium> Script<M> {
    ghost use Rattle.medium.specs.Calls.{rules_of, IsDecided};
    ghost use Rattle.medium.specs.Scripts.{script_rules, FollowsTheTable};

    // The first put follows the table's first entry.
    fn at_first(below: M) -> Script<M>
        ensures below { result.below ≡ below }
        ensures first { result.next ≡ 0 }
    {
        Script { below, next: 0 }
    }

    pub fn over(below: M) -> Script<M>
        ensures parts { (result.below ≡ below) × (result.next ≡ 0) }
        ensures decided { let R = rules_of M.lanes M.takes M.puts in
            IsDecided R below → IsDecided (script_rules R) result }
        ensures follows { let R = rules_of M.lanes M.takes M.puts in
            FollowsTheTable R result }
    {
        Script::at_first(below)
    }
}

// Puts the frame twice, and answers how many copies both appended.
fn put_twice<M: Medium>(below: &mut M, from: usize, to: usize, frame: Frame) -> usize
    ensures count { Allowed from to result }
    ensures after { M.Medium.lanes below.new ≡ appended (M.Medium.lanes below.old) from to frame result }
    ensures made { Doubled M.Medium.lanes M.Medium.puts below.old from to frame result below.new }
{
    let one = below.put(from, to, frame);
    let two = below.put(from, to, frame);
    one + two
}

impl<M: Medium> Medium for Script<M> {
    ghost use Rattle.medium.specs.Scripts.{script_lanes, script_puts, script_takes};

    ghost lanes = { script_lanes M.Medium.lanes };

    ghost puts = { script_puts M.Medium.lanes M.Medium.puts };

    ghost takes = { script_takes M.Medium.takes };

    ghost few = { λ s. M.Medium.few s.below };

    ghost outside = { λ s. M.Medium.outside s.below };

    fn put(&mut self, from: usize, to: usize, frame: Frame) -> usize {
        let fate = fate_of(self.next);
        self.next = (self.next + 1) % TABLE.len();
        match fate {
            Fate::Pass => self.below.put(from, to, frame),
            Fate::Drop => 0,
            Fate::Twice => put_twice(&mut self.below, from, to, frame),
        }
    }

    // Kept: take and waiting hand on, as in Quota, with the trait's clauses repeated beside the one of their own.
    fn take(&mut self, from: usize, to: usize) -> Option<Frame>
        ensures value { result ≡ first (M.Medium.lanes self.old.below from to) }
        ensures after { M.Medium.lanes self.new.below ≡ shortened (M.Medium.lanes self.old.below) from to }
        ensures next { self.new.next ≡ self.old.next }
        ensures made { (self.new.next ≡ self.old.next) × M.Medium.takes self.old.below from to self.new.below }
    {
        self.below.take(from, to)
    }

    fn waiting(&self, from: usize, to: usize) -> usize {
        self.below.waiting(from, to)
    }
}
