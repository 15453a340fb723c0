// A set of up to 64 tags, one bit each.
ghost use Rattle.std.specs.Prelude.{◌≡◌, ℕ, ◌||◌, bit_or};
ghost use Rattle.element.specs.Models.{bit, tags_algebra, Union};
ghost use Rattle.element.specs.Unions.{tags_lawful};
ghost use Rattle.std.proofs.Common.{rules};

use crate::element::Element;
use crate::words::Words;

#[derive(Clone, Copy, PartialEq, Eq)]
pub struct Tags {
    pub low: u32,
    pub high: u32,
}

// The tags of either word.
fn either(a: u32, b: u32) -> u32
    ensures exact { result ≡ bit_or a b }
    ensures bits { (k : ℕ) → bit result k ≡ (bit a k || bit b k) }
{
    a | b
}

impl Element for Tags {
    ghost KIND = { 3 };

    const KIND: u8 = 3;

    ghost USED = { 2 };

    const USED: usize = 2;

    ghost algebra = { tags_algebra };

    ghost numbered = { Prim.search rules };

    ghost lawful = { tags_lawful };

    fn zero() -> Tags {
        Tags { low: 0, high: 0 }
    }

    fn join(self, other: Tags) -> Tags
        ensures exact { result ≡ tags_algebra.join self other }
        ensures union { Union self other result }
    {
        Tags {
            low: either(self.low, other.low),
            high: either(self.high, other.high),
        }
    }

    fn pack(self) -> Words {
        Words {
            x: self.low,
            y: self.high,
            z: 0,
        }
    }

    fn unpack(words: Words) -> Tags {
        Tags {
            low: words.x,
            high: words.y,
        }
    }
}
