// Own sums: what the cells that a board owns bring to each vertex.
#![tactic(auto)]

pub mod own;
mod sums;
