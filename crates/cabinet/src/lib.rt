// A cabinet: a scene is laid out over its boards, run, and listed.
#![tactic(auto)]

pub mod listed;
mod outcome;
mod page;
pub mod prepare;
pub mod programs;

pub use circles::settle;
pub use refusals::refusal;
