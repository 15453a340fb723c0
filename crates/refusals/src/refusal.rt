// Why a scene is not run: a fault of any layer, as it was met there.
ghost use Rattle.std.specs.Prelude.{◌≡◌};
ghost use Rattle.element.specs.Numbers.{first_number, last_number};
ghost use Rattle.refusals.specs.Numbers.{refusal_numbers};
ghost use Rattle.refusals.specs.declared.refusal.Refusal.TheVariants.{Scene, Lay, Plan, Run};

use laying::fault::LayFault;
use plan::fault::PlanFault;
use protocol::fault::RunFault;
use scene::fault::SceneFault;

#[derive(Clone, Copy, PartialEq, Eq)]
pub enum Refusal {
    Scene(SceneFault),
    Lay(LayFault),
    Plan(PlanFault),
    Run(RunFault),
}

// Kept: a derive writes these without `from_gives`, and callers name the fault that a `?` hands on.
impl From<SceneFault> for Refusal {
    ghost from_gives = { λ f r. r ≡ Scene f };

    fn from(fault: SceneFault) -> Refusal {
        Refusal::Scene(fault)
    }
}

impl From<LayFault> for Refusal {
    ghost from_gives = { λ f r. r ≡ Lay f };

    fn from(fault: LayFault) -> Refusal {
        Refusal::Lay(fault)
    }
}

impl From<PlanFault> for Refusal {
    ghost from_gives = { λ f r. r ≡ Plan f };

    fn from(fault: PlanFault) -> Refusal {
        Refusal::Plan(fault)
    }
}

impl From<RunFault> for Refusal {
    ghost from_gives = { λ f r. r ≡ Run f };

    fn from(fault: RunFault) -> Refusal {
        Refusal::Run(fault)
    }
}

// Kept: a trait of what has numbers would be called here alone, and needs an impl for each of the four faults.
impl Refusal {
    // The refusal's number.
    pub fn number(&self) -> usize
        ensures { result ≡ first_number (refusal_numbers self.now) }
    {
        match self {
            Refusal::Scene(fault) => usize::from(fault.number()),
            Refusal::Lay(fault) => usize::from(fault.number()),
            Refusal::Plan(fault) => usize::from(fault.number()),
            Refusal::Run(fault) => fault.number(),
        }
    }

    // The last of its values.
    pub fn last(&self) -> usize
        ensures { result ≡ last_number (refusal_numbers self.now) }
    {
        match self {
            Refusal::Scene(fault) => fault.place(),
            Refusal::Lay(fault) => fault.last(),
            Refusal::Plan(fault) => fault.last(),
            Refusal::Run(fault) => fault.last(),
        }
    }
}
