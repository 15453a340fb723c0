// Media: the lanes between boards, as frames wait in them.
#![tactic(auto)]

pub mod frame;
pub mod medium;
pub mod queue;
pub mod quota;
pub mod script;
