// Elements: what a copy of a vertex holds, and how two of them are joined.
#![tactic(auto)]

pub mod depth;
pub mod element;
pub mod force;
pub mod kind;
pub mod kinds;
pub mod tags;
pub mod words;
