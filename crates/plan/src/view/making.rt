// Making a view, and having it take records.
ghost use Rattle.std.specs.Prelude.{◌≡◌, [], is_ok, Ok, Err};
ghost use Rattle.plan.specs.Faults.{plan_fault, fault_in};
ghost use Rattle.plan.specs.Sound.{sound_plan};

use super::PlanView;
use crate::fault::PlanFault;
use crate::records::{CopyRecord, Edge};
use crate::rules::Records;

impl<'a> PlanView<'a> {
    // One board and no records.
    pub fn new() -> PlanView<'a>
        ensures { (result.boards ≡ 1) × (result.copies.now ≡ []) × (result.edges.now ≡ []) }
    {
        PlanView {
            boards: 1,
            copies: &[],
            edges: &[],
            starts: [0; 65],
        }
    }

    // Makes this a view of these records, or refuses and keeps what it viewed.
    pub fn take(
        &mut self,
        boards: usize,
        copies: &'a [CopyRecord],
        edges: &'a [Edge],
    ) -> Result<(), PlanFault>
        ensures accepts { is_ok result ≡ sound_plan boards copies.now edges.now }
        ensures refuses { fault_in result ≡ plan_fault boards copies.now edges.now }
        ensures views { elim result [
          | Ok _ ↦ (self.new.boards ≡ boards)
              × (self.new.copies ≡ copies.entry) × (self.new.edges ≡ edges.entry)
          | Err _ ↦ self.new ≡ self.old
        ] }
    {
        let records = Records {
            boards,
            copies,
            edges,
        };
        records.check()?;
        *self = PlanView {
            boards,
            copies,
            edges,
            starts: records.link_starts(),
        };
        Ok(())
    }
}
