// How a line goes into memory that is handed in.
ghost use Rattle.std.specs.Prelude.{◌≡◌, ◌+◌, ◌<◌, ◌≤◌, length, Ok, Err};
ghost use Rattle.listing.specs.Held.{line_bytes};
ghost use Rattle.listing.specs.Placed.{placed};

use super::{Line, NoRoom};

impl Line {
    // Into `out` from `at` on. The answer is where the line ends.
    pub fn place(&self, out: &mut [u8], at: usize) -> Result<usize, NoRoom>
        ensures { elim result [
          | Ok end ↦ (end ≡ at + length (line_bytes self.now)) × (end ≤ length out.old)
              × (out.new ≡ placed out.old at (line_bytes self.now))
          | Err e ↦ (e.needed ≡ length (line_bytes self.now))
              × (length out.old < at + length (line_bytes self.now))
              × (out.new ≡ out.old)
        ] }
    {
        if out.len() < at || out.len() - at < self.len {
            return Err(NoRoom { needed: self.len });
        }
        let end = at + self.len;
        out[at..end].copy_from_slice(self.bytes());
        Ok(end)
    }
}
