// The trait of media: what put, take and waiting do to the lanes.
ghost use Rattle.std.specs.Prelude.{◌≡◌, ℕ, ◌≤◌, false, [], length};
ghost use Rattle.medium.specs.Lanes.{Lanes, Allowed, appended, first, is_lane, shortened};
ghost use Rattle.medium.specs.Puts.{Puts, Takes};

use crate::frame::Frame;

// Kept: the two boards of a lane apart, as the public calls take them; any two numbers are allowed, lane or not.
pub trait Medium {
    // The frames that wait from each board to each, oldest first.
    ghost lanes: { Self → Lanes };

    // What one put may make of the medium, as far as its rules decide it.
    ghost puts: { Puts Self };

    // What one take makes of the medium, as far as it says more than its lanes do: nothing, unless it is given.
    ghost takes: { Takes Self } = { λ _ _ _ _. Unit {0} };

    // Appends some number of copies of the frame, and answers that number.
    fn put(&mut self, from: usize, to: usize, frame: Frame) -> usize
        ensures count { Allowed from to result }
        ensures after { lanes self.new ≡ appended (lanes self.old) from to frame result }
        ensures made { puts self.old from to frame result self.new };

    // Removes the oldest frame, or answers None exactly if the lane is empty.
    fn take(&mut self, from: usize, to: usize) -> Option<Frame>
        ensures value { result ≡ first (lanes self.old from to) }
        ensures after { lanes self.new ≡ shortened (lanes self.old) from to }
        ensures made { takes self.old from to self.new };

    fn waiting(&self, from: usize, to: usize) -> usize
        ensures { result ≡ length (lanes self.now from to) };

    ghost few: { (m : Self) (p q : ℕ) → length (lanes m p q) ≤ 64 };

    ghost outside: { (m : Self) (p q : ℕ) → is_lane p q ≡ false → lanes m p q ≡ [] };
}
