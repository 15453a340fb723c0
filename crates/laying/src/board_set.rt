// A set of boards, one bit each.
ghost use Rattle.std.specs.Prelude.{◌≡◌, ℕ, ◌<◌, ◌||◌, false, nat_eq};
ghost use Rattle.laying.specs.BoardSets.{has};
ghost use Rattle.laying.specs.Tables.{lowest_below};

#[derive(Clone, Copy)]
pub(crate) struct BoardSet {
    bits: u8,
}

impl BoardSet {
    pub(crate) fn none() -> BoardSet
        ensures { (p : ℕ) → has result p ≡ false }
    {
        BoardSet { bits: 0 }
    }

    // Board p alone.
    #[tactic(auto, using(crate::proofs::BoardSets::bit_only))]
    pub(crate) fn only(p: usize) -> BoardSet
        requires { p < 8 }
        ensures { (q : ℕ) → has result q ≡ nat_eq p q }
    {
        BoardSet { bits: 1 << p }
    }

    #[tactic(auto, using(element::specs::Bitwise::or_bit))]
    pub(crate) fn union(self, other: BoardSet) -> BoardSet
        ensures { (p : ℕ) → has result p ≡ (has self p || has other p) }
    {
        BoardSet {
            bits: self.bits | other.bits,
        }
    }

    #[tactic(auto, using(crate::proofs::BoardSets::bit_tested))]
    pub(crate) fn has(self, p: usize) -> bool
        requires { p < 8 }
        ensures { result ≡ has self p }
    {
        self.bits & 1 << p != 0
    }

    // The lowest board in the set, if there is one.
    #[tactic(auto, using(crate::proofs::BoardSets::lowest_bit))]
    pub(crate) fn lowest(self) -> Option<u8>
        ensures { result ≡ lowest_below (has self) 8 }
    {
        if self.bits == 0 {
            None
        } else {
            Some(self.bits.trailing_zeros() as u8)
        }
    }
}
