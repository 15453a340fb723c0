// A medium over any medium that refuses a put to a lane where its limit of frames waits.
ghost use Rattle.std.specs.Prelude.{◌≡◌, [], ◌∷◌, Ok, Err};
ghost use Rattle.element.specs.Numbers.{first_number, last_number};
ghost use Rattle.medium.specs.Lanes.{first, shortened};
ghost use Rattle.medium.specs.Faults.{IsLimit, quota_numbers};

use crate::frame::Frame;
use crate::medium::Medium;

#[derive(Clone, Copy, PartialEq, Eq)]
pub enum QuotaFault {
    // Refusal 16: a limit outside 1 to 64.
    Limit { given: usize },
}

// Kept: the number and the last value by hand; both calls are public, and a conversion beside them is no plainer.
impl QuotaFault {
    // The refusal's number.
    pub fn number(&self) -> usize
        ensures { result ≡ first_number (quota_numbers self.now) }
    {
        16
    }

    // The last of its values.
    pub fn last(&self) -> usize
        ensures { result ≡ last_number (quota_numbers self.now) }
    {
        match *self {
            QuotaFault::Limit { given } => given,
        }
    }
}

// A number of frames from 1 to 64.
#[derive(Clone, Copy)]
pub struct Limit {
    frames: usize,
    ghost ok: { IsLimit frames },
}

impl Limit {
    // Kept: a call that is public already; TryFrom beside it would say the same twice.
    pub fn new(frames: usize) -> Result<Limit, QuotaFault>
        ensures { elim result [
          | Ok l ↦ IsLimit frames × (l.frames ≡ frames)
          | Err e ↦ (IsLimit frames → ⊥) × (e ≡ QuotaFault.Limit frames) × (quota_numbers e ≡ 16 ∷ frames ∷ [])
        ] }
    {
        if !(1..=64).contains(&frames) {
            return Err(QuotaFault::Limit { given: frames });
        }
        Ok(Limit { frames })
    }
}

#[derive(Drop)]
pub struct Quota<M> {
    below: M,
    limit: Limit,
}

impl<M: Medium> Quota<M> {
    ghost use Rattle.medium.specs.Calls.{rules_of, FillsEmptyLanes, IsDecided};
    ghost use Rattle.medium.specs.Quotas.{quota_rules};

    pub fn over(below: M, limit: Limit) -> Quota<M>
        ensures parts { (result.below ≡ below) × (result.limit ≡ limit) }
        ensures decided { let R = rules_of M.lanes M.takes M.puts in
            IsDecided R below → IsDecided (quota_rules R) result }
        ensures fills { let R = rules_of M.lanes M.takes M.puts in
            FillsEmptyLanes R → FillsEmptyLanes (quota_rules R) }
    {
        Quota { below, limit }
    }
}

impl<M: Medium> Medium for Quota<M> {
    ghost use Rattle.medium.specs.Quotas.{quota_lanes, quota_puts, quota_takes};

    ghost lanes = { quota_lanes M.Medium.lanes };

    ghost puts = { quota_puts M.Medium.lanes M.Medium.puts };

    ghost takes = { quota_takes M.Medium.takes };

    ghost few = { λ s. M.Medium.few s.below };

    ghost outside = { λ s. M.Medium.outside s.below };

    fn put(&mut self, from: usize, to: usize, frame: Frame) -> usize {
        if self.below.waiting(from, to) < self.limit.frames {
            self.below.put(from, to, frame)
        } else {
            0
        }
    }

    // Kept: take and waiting hand on, as in Script; a layer generic in its rule would hide fields that clauses name.
    fn take(&mut self, from: usize, to: usize) -> Option<Frame>
        ensures value { result ≡ first (M.Medium.lanes self.old.below from to) }
        ensures after { M.Medium.lanes self.new.below ≡ shortened (M.Medium.lanes self.old.below) from to }
        ensures limit { self.new.limit ≡ self.old.limit }
        ensures made { (self.new.limit ≡ self.old.limit) × M.Medium.takes self.old.below from to self.new.below }
    {
        self.below.take(from, to)
    }

    fn waiting(&self, from: usize, to: usize) -> usize {
        self.below.waiting(from, to)
    }
}
