// The lines that the programs print, byte for byte, made without a heap.
#![tactic(auto)]

pub mod line;
pub mod lines;
pub mod readings;
