// Scenes: the bytes that describe a divided surface, and a view of them.
#![tactic(auto)]

mod bytes;
mod cell;
mod check;
pub mod fault;
mod head;
mod loops;
mod marks;
mod record;
pub mod view;
