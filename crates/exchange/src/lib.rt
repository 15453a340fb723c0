// The exchange: the states of a run, and its calls: load, start, turn, report, end, abandon, show.
#![tactic(auto)]

pub mod run;

pub use protocol::fault;
