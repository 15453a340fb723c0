// Why records make no plan.
ghost use Rattle.std.specs.Prelude.{◌≡◌};
ghost use Rattle.element.specs.Numbers.{first_number, last_number};
ghost use Rattle.plan.specs.Faults.{plan_numbers};

#[derive(Clone, Copy, PartialEq, Eq)]
pub enum PlanFault {
    // The board count given is not 1 to 8.
    Boards { given: usize },
    // The first copy that breaks the rules.
    Copy { number: usize },
    // The first edge that breaks them.
    Edge { number: usize },
}

impl PlanFault {
    // Kept: a refusal is told by two numbers, and a conversion would say only one of them.

    // The refusal's number.
    pub fn number(&self) -> u8
        ensures { result ≡ first_number (plan_numbers self.now) }
    {
        match *self {
            PlanFault::Boards { .. } => 13,
            PlanFault::Copy { .. } | PlanFault::Edge { .. } => 9,
        }
    }

    // The last of its values.
    pub fn last(&self) -> usize
        ensures { result ≡ last_number (plan_numbers self.now) }
    {
        match *self {
            PlanFault::Boards { given } => given,
            PlanFault::Copy { number } | PlanFault::Edge { number } => number,
        }
    }
}
