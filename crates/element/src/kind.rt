// The kinds of elements that a scene's header can name.
ghost use Rattle.std.specs.Prelude.{◌≡◌};
ghost use Rattle.element.specs.Kinds.{kind_number, used_by, Names};

#[derive(Clone, Copy, PartialEq, Eq)]
pub enum Kind {
    Force,
    Depth,
    Tags,
}

// A number that no kind has.
#[derive(Clone, Copy, PartialEq, Eq)]
pub struct UnknownKind {
    pub given: u8,
}

impl Kind {
    // How many of the three words its elements use.
    pub fn used(self) -> usize
        ensures { result ≡ used_by (kind_number self) }
    {
        match self {
            Kind::Force => 3,
            Kind::Depth => 1,
            Kind::Tags => 2,
        }
    }
}

impl From<Kind> for u8 {
    ghost from_gives = { λ k n. n ≡ kind_number k };

    fn from(kind: Kind) -> u8 {
        match kind {
            Kind::Force => 1,
            Kind::Depth => 2,
            Kind::Tags => 3,
        }
    }
}

impl TryFrom<u8> for Kind {
    type Error = UnknownKind;

    ghost try_from_gives = { Names };

    fn try_from(number: u8) -> Result<Kind, UnknownKind> {
        match number {
            1 => Ok(Kind::Force),
            2 => Ok(Kind::Depth),
            3 => Ok(Kind::Tags),
            _ => Err(UnknownKind { given: number }),
        }
    }
}
