// Why laying a plan is refused.
mod numbers;

// Too few records handed in, and how many are needed. Copies are looked at first.
#[derive(Clone, Copy, PartialEq, Eq)]
pub enum LayFault {
    Copies { needed: usize },
    Edges { needed: usize },
}
