// The roots of a plan, by board, then vertex.
ghost use Rattle.std.specs.Prelude.{◌≡◌, ◌+◌, ◌<◌, ◌≤◌, ◌++◌, map, length};
ghost use Rattle.laying.specs.Tables.{root_copy, root_if, row_roots, roots_in};

use crate::root::Root;
use arrayvec::ArrayVec;

// Appends board q's root of v, if v belongs to it.
fn add_root(owner: Option<u8>, q: u8, v: usize, roots: &mut ArrayVec<Root, 1024>)
    requires low { (q < 8) × (v < 1024) }
    requires room { length roots.old.items + length (root_if owner q v) ≤ 1024 }
    ensures { map root_copy roots.new.items ≡ map root_copy roots.old.items ++ root_if owner q v }
{
    if owner == Some(q) {
        roots.push(Root {
            board: q,
            vertex: v as u16,
        });
    }
}

// Appends the roots of board q.
fn add_row(owners: &[Option<u8>], q: u8, roots: &mut ArrayVec<Root, 1024>)
    requires board { q < 8 }
    requires few { length owners.now ≤ 1024 }
    requires room { length roots.old.items + length (row_roots owners.now (length owners.now) q) ≤ 1024 }
    ensures { map root_copy roots.new.items
        ≡ map root_copy roots.old.items ++ row_roots owners.now (length owners.now) q }
{
    for (v, owner) in owners.iter().enumerate() {
        add_root(*owner, q, v, roots);
    }
}

// The roots of all boards. A vertex has at most one, so there is room.
pub(crate) fn roots(owners: &[Option<u8>], boards: usize) -> ArrayVec<Root, 1024>
    requires boards { boards ≤ 8 }
    requires vertices { length owners.now ≤ 1024 }
    ensures { map root_copy result.items ≡ roots_in owners.now (length owners.now) boards }
{
    let mut roots = ArrayVec::new();
    // Kept: a `for` over boards' numbers; there is no slice of boards.
    for q in 0..boards {
        add_row(owners, q as u8, &mut roots);
    }
    roots
}
