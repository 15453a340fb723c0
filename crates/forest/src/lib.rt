// The star forest of a divided scene: its copies, roots and edges, by definitions in specs/ with what they mean.
#![tactic(auto)]

pub mod meaning;
