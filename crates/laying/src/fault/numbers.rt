// The numbers sent back for a fault.
ghost use Rattle.std.specs.Prelude.{◌≡◌, slice_index};
ghost use Rattle.laying.specs.Faults.{lay_numbers};

use super::LayFault;

// Kept: a match for each, since the numbers are the programs' interface and no derive writes them.
impl LayFault {
    // The number of the refusal.
    pub fn number(&self) -> u8
        ensures { result ≡ slice_index (lay_numbers self.now) 0 }
    {
        8
    }

    // Which records were too few: 0 for copies, 1 for edges.
    pub fn which(&self) -> u8
        ensures { result ≡ slice_index (lay_numbers self.now) 1 }
    {
        match self {
            LayFault::Copies { .. } => 0,
            LayFault::Edges { .. } => 1,
        }
    }

    // The last number: the length needed.
    pub fn last(&self) -> usize
        ensures { result ≡ slice_index (lay_numbers self.now) 2 }
    {
        match self {
            LayFault::Copies { needed } => *needed,
            LayFault::Edges { needed } => *needed,
        }
    }
}
