// The numbers of the copies: how many stand before each.
ghost use Rattle.std.specs.Prelude.{◌≡◌, ℕ, ◌+◌, ◌<◌, ◌≤◌, length};
ghost use Rattle.laying.specs.Rows.{Tabulates, flag_at, many};
ghost use Rattle.laying.specs.Tables.{row, copies_in, number_in};

// Numbers a board's copies, which begin at number `first`, and answers the number that follows.
fn number_row(row: &[bool], first: usize, numbers: &mut [u16; 1024]) -> usize
    requires few { length row.now ≤ 1024 }
    requires small { first ≤ 8192 }
    ensures held { Tabulates numbers.new (length row.now) (λ v. first + many (flag_at row.now) v) }
    ensures next { result ≡ first + many (flag_at row.now) (length row.now) }
{
    let mut next = first;
    for (v, kept) in row.iter().enumerate() {
        numbers[v] = next as u16;
        next += usize::from(*kept);
    }
    next
}

// Numbers the copies of all boards, which keep the flagged ones of n vertices, and answers how many there are.
pub(crate) fn number_all(kept: &[[bool; 1024]], n: usize, numbers: &mut [[u16; 1024]; 8]) -> usize
    requires boards { length kept.now ≤ 8 }
    requires vertices { n ≤ 1024 }
    ensures held { (p : ℕ) → p < length kept.now
        → Tabulates (row numbers.new p) n (number_in kept.now n p) }
    ensures count { result ≡ length (copies_in kept.now n (length kept.now)) }
{
    let mut next = 0;
    for (p, row) in kept.iter().enumerate() {
        next = number_row(&row[..n], next, &mut numbers[p]);
    }
    next
}
