// Forces are added axis by axis.
ghost use Rattle.std.specs.Prelude.{◌≡◌, ℕ, ◌+◌};
ghost use Rattle.element.specs.Models.{axis, force, force_algebra, Adds, Sum};
ghost use Rattle.element.specs.Forces.{force_lawful};
ghost use Rattle.std.proofs.Common.{rules};

use crate::element::Element;
use crate::force::Force;
use crate::words::Words;

// The force of any three numbers whose axes these words are.
fn axes(x: u32, y: u32, z: u32) -> Force
    ensures exact { (a b c : ℕ) → x ≡ axis a → y ≡ axis b → z ≡ axis c → result ≡ force a b c }
    ensures parts { (result.x ≡ x) × (result.y ≡ y) × (result.z ≡ z) }
{
    Force { x, y, z }
}

// The sum along one axis, whether it is read with a sign or without.
fn along(a: u32, b: u32) -> u32
    ensures exact { result ≡ axis (a + b) }
    ensures signed { Adds a b result }
{
    a.wrapping_add(b)
}

impl Element for Force {
    ghost KIND = { 1 };

    const KIND: u8 = 1;

    ghost USED = { 3 };

    const USED: usize = 3;

    ghost algebra = { force_algebra };

    ghost numbered = { Prim.search rules };

    ghost lawful = { force_lawful };

    fn zero() -> Force {
        Self::unpack(Words { x: 0, y: 0, z: 0 })
    }

    fn join(self, other: Force) -> Force
        ensures exact { result ≡ force_algebra.join self other }
        ensures sum { Sum self other result }
    {
        axes(
            along(self.x, other.x),
            along(self.y, other.y),
            along(self.z, other.z),
        )
    }

    fn pack(self) -> Words {
        Words {
            x: self.x,
            y: self.y,
            z: self.z,
        }
    }

    fn unpack(words: Words) -> Force {
        axes(words.x, words.y, words.z)
    }
}
