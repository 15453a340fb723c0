// Counts over a run and over one turn, and what a report says.

#[derive(Clone, Copy, PartialEq, Eq)]
pub struct Tally {
    pub turns: usize,
    pub puts: usize,
    pub lost: usize,
    pub accepted: usize,
}

// Of one turn: frames taken, items accepted, puts made, and puts among them that left no frame.
#[derive(Clone, Copy, PartialEq, Eq)]
pub struct TurnCounts {
    pub taken: usize,
    pub accepted: usize,
    pub puts: usize,
    pub lost: usize,
}

// Kept: no `Option`, whose `None` would have to mean settled.
#[derive(Clone, Copy, PartialEq, Eq)]
pub enum Report {
    Settled,
    // the lowest board whose items are lacking, and how many
    Awaits { board: usize, items: usize },
}
