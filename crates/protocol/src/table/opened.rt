// A table with all counts zero.
ghost use Rattle.std.specs.Prelude.{◌≡◌, replicate};
ghost use Rattle.protocol.specs.Runs.{no_link};

use super::{Link, LinkTable};

impl LinkTable {
    pub fn new() -> LinkTable
        ensures { result.links ≡ replicate 64 no_link }
    {
        LinkTable {
            links: [Link { i: 0, j: 0 }; 64],
        }
    }
}
