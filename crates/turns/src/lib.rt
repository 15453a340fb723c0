// Turns: a board takes what waits for it, then puts what is due.
#![tactic(auto)]

mod board;
mod link;
mod receive;
mod send;
pub mod turn;
