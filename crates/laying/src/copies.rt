// Writing the copies of a plan.
ghost use Rattle.std.specs.Prelude.{◌≡◌, ◌<◌, ◌≤◌, ◌++◌, length, drop};
ghost use Rattle.laying.specs.Filled.{HasRoom, Appends};
ghost use Rattle.laying.specs.Said.{all_copies};
ghost use Rattle.laying.specs.Rows.{only};
ghost use Rattle.laying.specs.Tables.{copy_record, row_copies};

use crate::filling::Filling;
use crate::tables::Tables;
use plan::records::CopyRecord;

// Appends board p's copy of v, if it keeps one.
fn write_copy(kept: bool, p: u8, v: usize, out: &mut Filling<CopyRecord>)
    requires low { v < 1024 }
    requires room { HasRoom out.old (only kept (copy_record p v)) }
    ensures { Appends out.old out.new (only kept (copy_record p v)) }
{
    let copy = CopyRecord {
        board: p,
        vertex: v as u16,
    };
    out.push_if(kept, copy);
}

// Appends the copies of board p, which keeps the flagged vertices.
fn write_row(row: &[bool], p: u8, out: &mut Filling<CopyRecord>)
    requires few { length row.now ≤ 1024 }
    requires room { HasRoom out.old (row_copies row.now p (length row.now)) }
    ensures { Appends out.old out.new (row_copies row.now p (length row.now)) }
{
    for (v, kept) in row.iter().enumerate() {
        write_copy(*kept, p, v, out);
    }
}

impl Tables {
    // Writes the copies of all boards.
    pub(crate) fn write_copies(&self, copies: &mut [CopyRecord])
        requires { length (all_copies self.now) ≤ length copies.old }
        ensures { copies.new
            ≡ all_copies self.now ++ drop (length (all_copies self.now)) copies.old }
    {
        let mut out = Filling::new(copies);
        for (p, row) in self.kept[..self.boards].iter().enumerate() {
            write_row(&row[..self.vertices], p as u8, &mut out);
        }
    }
}
