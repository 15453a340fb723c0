// Refusals: the fault that a caller hands on, whichever layer met it.
#![tactic(auto)]

pub mod refusal;
