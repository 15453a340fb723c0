// What is wrong with a record, and with a scene.
ghost use Rattle.std.specs.Prelude.{◌≡◌};

mod numbers;

// What is wrong with one record, and at which byte of the scene.
#[derive(Clone, Copy, PartialEq, Eq)]
pub enum RecordFault {
    Short { place: usize },
    Mark { place: usize },
    Header { place: usize },
    Cell { place: usize },
    Corners { place: usize },
    Word { place: usize },
    Trailing { place: usize },
}

// A record's number, 0 for the header, then the cells, then the end; and its fault.
#[derive(Clone, Copy, PartialEq, Eq)]
pub struct SceneFault {
    pub record: usize,
    pub fault: RecordFault,
}

// What the reader of one record answers: it knows the record's number, which a fault alone does not say.
#[derive(Clone, Copy)]
pub(crate) struct Broken {
    pub number: usize,
    pub fault: RecordFault,
}

// Kept: by hand, since no derive says in a clause what a `?` makes of it.
impl From<Broken> for SceneFault {
    ghost from_gives = { λ b s. s ≡ record { «record» = b.number; fault = b.fault } };

    fn from(broken: Broken) -> SceneFault {
        SceneFault {
            record: broken.number,
            fault: broken.fault,
        }
    }
}
