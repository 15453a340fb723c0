// Laying plans: the star forest of a divided scene.
#![tactic(auto)]

mod board_set;
mod cells;
mod copies;
mod edges;
pub mod fault;
mod filling;
pub mod laying;
mod numbers;
mod overlap;
mod owners;
mod root;
mod roots;
mod tables;
