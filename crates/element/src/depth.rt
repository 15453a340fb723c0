// A depth: the larger of two wins.
ghost use Rattle.std.specs.Prelude.{◌≡◌};
ghost use Rattle.element.specs.Models.{depth_algebra};
ghost use Rattle.std.proofs.Common.{rules};

use crate::element::Element;
use crate::words::Words;

#[derive(Clone, Copy, PartialEq, Eq)]
pub struct Depth {
    pub value: u32,
}

impl Element for Depth {
    ghost KIND = { 2 };

    const KIND: u8 = 2;

    ghost USED = { 1 };

    const USED: usize = 1;

    ghost algebra = { depth_algebra };

    ghost numbered = { Prim.search rules };

    ghost lawful = { Prim.search rules };

    fn zero() -> Depth {
        Depth { value: 0 }
    }

    fn join(self, other: Depth) -> Depth {
        Depth {
            value: self.value.max(other.value),
        }
    }

    fn pack(self) -> Words {
        Words {
            x: self.value,
            y: 0,
            z: 0,
        }
    }

    fn unpack(words: Words) -> Depth {
        Depth { value: words.x }
    }
}
