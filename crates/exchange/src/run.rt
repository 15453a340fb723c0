// The states of a run. They are neither copied nor let go: one call leads on to the next.
ghost use Rattle.std.specs.Prelude.{◌*◌, ◌≤◌};
ghost use Rattle.protocol.specs.Faults.{turn_limit};

use protocol::tally::Tally;

// Kept: plan, link table, medium and copies are parameters of each call, as its callers and its clauses have them.
pub mod book;
pub mod drive;
mod end;
pub mod load;
mod report;
mod show;
mod start;
mod turn;

// A part of each state. It derives nothing, so no state can be copied or let go.
struct Linear;

// Each copy holds its board's own sum.
pub struct Loaded {
    copies: usize,
    linear: Linear,
}

// The boards turn.
pub struct Turning {
    tally: Tally,
    linear: Linear,
    ghost few: { (tally.turns ≤ turn_limit) × (tally.puts ≤ 8 * tally.turns) × (tally.lost ≤ tally.puts) ×
        (tally.accepted ≤ 512 * tally.turns) },
}

// Every board is settled.
pub struct Ended {
    tally: Tally,
    linear: Linear,
}
