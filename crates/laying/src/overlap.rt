// For each vertex the boards that own a cell on it, and those that keep a copy of it.
ghost use Rattle.std.specs.Prelude.{◌≡◌, ℕ, ◌<◌, Bool, ◌&&◌, ◌||◌, length, nat_eq};
ghost use Rattle.std.specs.List.{AllByRecursion};
ghost use Rattle.scene.specs.Views.{viewed};
ghost use Rattle.forest.specs.Forest.{any, keeps, owns_cell_on};
ghost use Rattle.laying.specs.Seen.{cell_of, ReadFrom};
ghost use Rattle.laying.specs.BoardSets.{has, board_set_at, TellsAll};
ghost use Rattle.laying.specs.Rows.{Tells, some};
ghost use Rattle.laying.specs.Tables.{row};

use crate::board_set::BoardSet;
use scene::view::SceneView;

// Adds boards to those at vertex v.
fn add(marked: &mut [BoardSet; 1024], v: u16, boards: BoardSet)
    requires { v < 1024 }
    ensures { TellsAll marked.new 1024
        (λ p k. has (board_set_at marked.old k) p || (has boards p && nat_eq v k)) }
{
    let v = usize::from(v);
    marked[v] = marked[v].union(boards);
}

// Adds boards to those at the corners of a cell.
// Kept: a `for` and no chain, since after `for_each` a proof knows nothing of what its closure wrote.
fn mark_cell(corners: &[u16; 3], boards: BoardSet, marked: &mut [BoardSet; 1024])
    requires { AllByRecursion (λ v. v < 1024) corners.now }
    ensures { TellsAll marked.new 1024
        (λ p v. has (board_set_at marked.old v) p
        || (has boards p && any (λ x. nat_eq x v) corners.now)) }
{
    for v in corners {
        add(marked, *v, boards);
    }
}

// For each vertex the boards of the cells on it.
fn mark<F: Fn(usize) -> BoardSet>(corners: &[[u16; 3]], boards: F) -> [BoardSet; 1024]
    requires callable { (c : ℕ) → c < length corners.now → F.pre boards c }
    requires low { (c : ℕ) → c < length corners.now → AllByRecursion (λ v. v < 1024) (row corners.now c) }
    ensures { (t : ℕ → ℕ → Bool)
        → ((c : ℕ) (found : BoardSet) → c < length corners.now → F.post boards c found
        → (p : ℕ) → has found p ≡ t p c)
        → TellsAll result 1024
        (λ p v. some (λ c. t p c && any (λ x. nat_eq x v) (row corners.now c)) (length corners.now)) }
{
    let mut marked = [BoardSet::none(); 1024];
    for (c, cell) in corners.iter().enumerate() {
        mark_cell(cell, boards(c), &mut marked);
    }
    marked
}

// The board of cell number c.
fn own_board(scene: &SceneView, c: usize) -> BoardSet
    requires { c < length (viewed scene.now).cells }
    ensures { (p : ℕ) → has result p ≡ nat_eq (cell_of scene.now c).board p }
{
    let Some(p) = scene.cell_board(c) else {
        unreachable!()
    };
    BoardSet::only(p)
}

// For each vertex the boards that own a cell on it.
pub(crate) fn own_vertices(scene: &SceneView, corners: &[[u16; 3]]) -> [BoardSet; 1024]
    requires { ReadFrom (viewed scene.now) corners.now }
    ensures { TellsAll result 1024 (owns_cell_on (viewed scene.now)) }
{
    mark(corners, |c| own_board(scene, c))
}

// The boards at the corners of a cell.
fn at_corners(corners: &[u16; 3], near: &[BoardSet; 1024]) -> BoardSet
    requires { AllByRecursion (λ v. v < 1024) corners.now }
    ensures { (p : ℕ) → has result p ≡ any (λ v. has (board_set_at near.now v) p) corners.now }
{
    let mut boards = BoardSet::none();
    for v in corners {
        boards = boards.union(near[usize::from(*v)]);
    }
    boards
}

// One layer more: each board at a corner of a cell comes to all its corners.
fn spread(corners: &[[u16; 3]], near: &[BoardSet; 1024]) -> [BoardSet; 1024]
    requires { (c : ℕ) → c < length corners.now → AllByRecursion (λ v. v < 1024) (row corners.now c) }
    ensures { TellsAll result 1024
        (λ p v. some (λ c. any (λ x. has (board_set_at near.now x) p) (row corners.now c)
        && any (λ x. nat_eq x v) (row corners.now c))
        (length corners.now)) }
{
    mark(corners, |c| at_corners(&corners[c], near))
}

// For each vertex the boards that keep a copy of it.
pub(crate) fn keepers(
    scene: &SceneView,
    corners: &[[u16; 3]],
    owners: &[BoardSet; 1024],
) -> [BoardSet; 1024]
    requires read { ReadFrom (viewed scene.now) corners.now }
    requires own { TellsAll owners.now 1024 (owns_cell_on (viewed scene.now)) }
    ensures { TellsAll result 1024 (keeps (viewed scene.now)) }
{
    let mut near = *owners;
    // Kept: a `for` that repeats; each layer is made of the one before.
    for _layer in 0..scene.overlap() {
        near = spread(corners, &near);
    }
    near
}

// Flags the vertices whose sets have board p.
fn flag_row(sets: &[BoardSet; 1024], p: usize, row: &mut [bool; 1024])
    requires { p < 8 }
    ensures { Tells row.new 1024 (λ v. has (board_set_at sets.now v) p) }
{
    for (v, flag) in row.iter_mut().enumerate() {
        *flag = sets[v].has(p);
    }
}

// For each board, flags the vertices whose sets have it.
pub(crate) fn flag_all(sets: &[BoardSet; 1024], rows: &mut [[bool; 1024]; 8])
    ensures { (p : ℕ) → p < 8 → Tells (row rows.new p) 1024 (λ v. has (board_set_at sets.now v) p) }
{
    for (p, row) in rows.iter_mut().enumerate() {
        flag_row(sets, p, row);
    }
}
