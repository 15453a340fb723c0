// Why a call of a run is refused.
ghost use Rattle.std.specs.Prelude.{◌≡◌, slice_index};
ghost use Rattle.element.specs.Numbers.{last_number};
ghost use Rattle.protocol.specs.Faults.{run_numbers};

// How many turns a run has.
pub const TURN_LIMIT: usize = 1_000_000;

#[derive(Clone, Copy, PartialEq, Eq)]
pub enum RunFault {
    // the scene has elements of this kind, the copies of another
    // Kept: its number, since other types of elements may have kinds of their own.
    Kind { kind: u8 },
    // the copies memory is too short
    Short { needed: usize },
    // a frame waits in this lane
    Waiting { from: usize, to: usize },
    // no such board
    Board { given: usize },
    // the run has had all its turns
    Turns,
    // this board, the lowest, is not settled
    Early { board: usize },
}

// Kept: a refusal is told by two numbers, and a conversion would say one.
impl RunFault {
    // The refusal's number.
    pub fn number(&self) -> usize
        ensures { result ≡ slice_index (run_numbers self.now) 0 }
    {
        match self {
            RunFault::Kind { kind: _ } => 10,
            RunFault::Short { needed: _ } => 11,
            RunFault::Waiting { from: _, to: _ } => 12,
            RunFault::Board { given: _ } => 13,
            RunFault::Turns => 14,
            RunFault::Early { board: _ } => 15,
        }
    }

    // The last of its values.
    pub fn last(&self) -> usize
        ensures { result ≡ last_number (run_numbers self.now) }
    {
        match self {
            RunFault::Kind { kind } => usize::from(*kind),
            RunFault::Short { needed } => *needed,
            RunFault::Waiting { from: _, to } => *to,
            RunFault::Board { given } => *given,
            RunFault::Turns => TURN_LIMIT,
            RunFault::Early { board } => *board,
        }
    }
}
