// Which record of a plan is the first to break the rules.
ghost use Rattle.std.specs.Prelude.{◌≡◌, ◌<◌, true, length, is_ok};
ghost use Rattle.plan.specs.Faults.{first_bad, plan_fault, fault_in};
ghost use Rattle.plan.specs.Sound.{sound_plan, keeps_rules};

use crate::fault::PlanFault;
use crate::rules::{Record, Records};

impl Records<'_> {
    // Whether record `i` fits, and stands after the one before it.
    fn keeps<R: Record>(&self, records: &[R], i: usize) -> bool
        requires { i < length records.now }
        ensures { (none : R) → result
            ≡ keeps_rules (R.fits self.now.boards self.now.copies.now) R.before none records.now i }
    {
        records[i].fits(self) && (i == 0 || records[i - 1].is_before(&records[i]))
    }

    // The first of these records that breaks the rules.
    fn first_bad<R: Record>(&self, records: &[R]) -> Option<usize>
        ensures { result
            ≡ first_bad (R.fits self.now.boards self.now.copies.now) R.before (λ _. true) records.now 0 }
    {
        (0..records.len()).find(|&i| !self.keeps(records, i))
    }

    // Whether the records make a plan, or what the first fault is.
    #[tactic(auto, using(crate::proofs::Faultless::sound_is_faultless))]
    pub(crate) fn check(&self) -> Result<(), PlanFault>
        ensures accepts { is_ok result ≡ sound_plan self.now.boards self.now.copies.now self.now.edges.now }
        ensures refuses { fault_in result ≡ plan_fault self.now.boards self.now.copies.now self.now.edges.now }
    {
        if !(1..=8).contains(&self.boards) {
            return Err(PlanFault::Boards { given: self.boards });
        }
        if let Some(number) = self.first_bad(self.copies) {
            return Err(PlanFault::Copy { number });
        }
        if let Some(number) = self.first_bad(self.edges) {
            return Err(PlanFault::Edge { number });
        }
        Ok(())
    }
}
