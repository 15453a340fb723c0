// The trait of elements: a commutative monoid that packs into three words.
ghost use Rattle.std.specs.Prelude.{◌≡◌, ℕ, true};
ghost use Rattle.element.specs.Algebra.{Algebra, Lawful};
ghost use Rattle.element.specs.Kinds.{is_kind, used_by};

use crate::words::Words;

pub trait Element: Copy {
    // The kind that a scene's header names this type by, and how many of the three words it uses.
    // Kept: a number, and no `Kind`, since other types of elements may have kinds of their own.
    ghost KIND: { ℕ };

    const KIND: u8;

    ghost USED: { ℕ };

    const USED: usize;

    ghost algebra: { Algebra Self };

    fn zero() -> Self
        ensures { result ≡ algebra.zero };

    fn join(self, other: Self) -> Self
        ensures { result ≡ algebra.join self other };

    // Kept: not `From`, whose ghosts two more laws would have to tie to the algebra.
    fn pack(self) -> Words
        ensures { result ≡ algebra.pack self };

    fn unpack(words: Words) -> Self
        ensures { result ≡ algebra.unpack words };

    // A kind that a scene's header can name uses as many words as a scene of that kind may.
    ghost numbered: { (algebra.kind ≡ KIND) × (algebra.used ≡ USED)
        × (is_kind KIND ≡ true → used_by KIND ≡ USED) };

    ghost lawful: { Lawful algebra };

    final fn own_kind() -> u8
        ensures { result ≡ algebra.kind }
    {
        Self::KIND
    }

    final fn used_words() -> usize
        ensures { result ≡ algebra.used }
    {
        Self::USED
    }
}
