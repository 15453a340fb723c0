// The protocol: link counts, tallies, reports and refusals.
// Its rules, runs and promise are in specs/, their proof in proofs/.
#![tactic(auto)]

pub mod fault;
pub mod room;
pub mod table;
pub mod tally;
