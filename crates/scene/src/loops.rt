// Checks that are made for one number after the other.
ghost use Rattle.std.specs.Prelude.{◌≡◌, ℕ, ◌-◌, ◌<◌, ◌≤◌, List};
ghost use Rattle.std.specs.List.{range_with_len, flat_map};
ghost use Rattle.scene.specs.Rules.{Rule, verdict};

use std::ops::Range;

// Makes a check for each number, up to the first fault. If each comes to a list of rules, all come to the lists
// together.
pub(crate) fn first_fault<E, F: Fn(u16) -> Result<(), E>>(
    mut numbers: Range<u16>,
    check: F,
) -> Result<(), E>
    requires { (n : ℕ) → numbers.start ≤ n → n < numbers.end → F.pre check n }
    ensures { (rules : ℕ → List (Rule E))
        → ((n : ℕ) (found : _) → numbers.start ≤ n → n < numbers.end → F.post check n found → found ≡ verdict (rules n))
        → result ≡ verdict (flat_map rules (range_with_len numbers.start (numbers.end - numbers.start))) }
{
    numbers.try_for_each(check)
}
