// What the boards know of each link: 64 records in one flat table, from board p to board q at 8 * p + q.
ghost use Rattle.std.specs.Prelude.{◌≡◌, length};

mod opened;

// `i` items are known to have arrived, `j` items were accepted.
#[derive(Clone, Copy, PartialEq, Eq)]
pub struct Link {
    pub i: usize,
    pub j: usize,
}

// Kept: one flat array of fixed length: a turn lends one record of it after another.
#[derive(Drop)]
pub struct LinkTable {
    pub links: [Link; 64],
    ghost full: { length links ≡ 64 },
}
