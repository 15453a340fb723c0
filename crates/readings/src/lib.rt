// The rules of scenes, plans, elements and runs, worked out on examples.
#![tactic(auto)]

pub mod pages;
pub mod readings;
pub mod runs;
