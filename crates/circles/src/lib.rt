// Circles: the boards turn in ascending order, round after round, until all are settled.
#![tactic(auto)]

mod check;
pub mod goal;
pub mod settle;
