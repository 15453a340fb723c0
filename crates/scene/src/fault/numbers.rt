// The numbers that stand for a fault.
ghost use Rattle.std.specs.Prelude.{◌≡◌, slice_index};
ghost use Rattle.element.specs.Numbers.{first_number, last_number};
ghost use Rattle.scene.specs.Faults.{fault_numbers, record_numbers};

use super::{RecordFault, SceneFault};

// Kept: a refusal is told by two numbers, and a conversion would say one.
impl RecordFault {
    // The refusal's number.
    pub fn number(&self) -> u8
        ensures { result ≡ first_number (record_numbers self.now) }
    {
        match *self {
            RecordFault::Short { .. } => 1,
            RecordFault::Mark { .. } => 2,
            RecordFault::Header { .. } => 3,
            RecordFault::Cell { .. } => 4,
            RecordFault::Corners { .. } => 5,
            RecordFault::Word { .. } => 6,
            RecordFault::Trailing { .. } => 7,
        }
    }

    // The last of its values: the byte of the scene at which it is broken.
    pub fn last(&self) -> usize
        ensures { result ≡ last_number (record_numbers self.now) }
    {
        match *self {
            RecordFault::Short { place }
            | RecordFault::Mark { place }
            | RecordFault::Header { place }
            | RecordFault::Cell { place }
            | RecordFault::Corners { place }
            | RecordFault::Word { place }
            | RecordFault::Trailing { place } => place,
        }
    }
}

impl SceneFault {
    // The refusal's number: that of the record's fault.
    pub fn number(&self) -> u8
        ensures { result ≡ slice_index (fault_numbers self.now) 0 }
    {
        self.fault.number()
    }

    // The byte of the scene at which it is broken.
    pub fn place(&self) -> usize
        ensures { result ≡ slice_index (fault_numbers self.now) 1 }
    {
        self.last()
    }

    // The last of its values: that of the record's fault.
    pub fn last(&self) -> usize
        ensures { result ≡ last_number (fault_numbers self.now) }
    {
        self.fault.last()
    }
}
