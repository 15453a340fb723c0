// Plans: which board keeps a copy of which vertex, and which copy is the root of which.
#![tactic(auto)]

mod check;
pub mod fault;
mod links;
pub mod parts;
pub mod records;
mod rules;
pub mod view;
