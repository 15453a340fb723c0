// What a view views.
ghost use Rattle.std.specs.Prelude.{◌≡◌};

use super::PlanView;
use crate::records::{CopyRecord, Edge};

impl<'a> PlanView<'a> {
    pub fn boards(&self) -> usize
        ensures { result ≡ self.now.boards }
    {
        self.boards
    }

    pub fn copies(&self) -> &'a [CopyRecord]
        ensures { result ≡ self.now.copies }
    {
        self.copies
    }

    pub fn edges(&self) -> &'a [Edge]
        ensures { result ≡ self.now.edges }
    {
        self.edges
    }
}
