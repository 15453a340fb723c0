// The working tables of a scene, from which its plan is counted and written.
ghost use Rattle.std.specs.Prelude.{◌≡◌, ◌≤◌, length};
ghost use Rattle.scene.specs.Views.{viewed};
ghost use Rattle.laying.specs.Right.{Right};
ghost use Rattle.forest.specs.Forest.{laid_copies, laid_edges};

use crate::cells::corners;
use crate::laying::LaidCounts;
use crate::numbers::number_all;
use crate::overlap::{flag_all, keepers, own_vertices};
use crate::owners::owners;
use crate::root::Root;
use crate::roots::roots;
use arrayvec::ArrayVec;
use scene::view::SceneView;

// For each board the vertices that it keeps and the numbers of its copies, and all roots.
// Kept: arrays as long as a scene may be, since laying takes no heap and may not fail for memory.
#[derive(Drop)]
pub(crate) struct Tables {
    pub(crate) kept: [[bool; 1024]; 8],
    pub(crate) numbers: [[u16; 1024]; 8],
    pub(crate) roots: ArrayVec<Root, 1024>,
    pub(crate) boards: usize,
    pub(crate) vertices: usize,
    ghost few: { boards ≤ 8 },
    ghost small: { vertices ≤ 1024 },
}

impl Tables {
    // Of no boards and no vertices.
    pub(crate) fn empty() -> Tables {
        Tables {
            kept: [[false; 1024]; 8],
            numbers: [[0; 1024]; 8],
            roots: ArrayVec::new(),
            boards: 0,
            vertices: 0,
        }
    }

    // Fills them for a scene, and answers how many records its plan has: each copy that is no root has one edge.
    // Kept: in place, since to hand so long arrays from call to call takes longer than to fill them.
    pub(crate) fn fill(&mut self, scene: &SceneView) -> LaidCounts
        ensures boards { self.new.boards ≡ (viewed scene.now).boards }
        ensures vertices { self.new.vertices ≡ (viewed scene.now).vertices }
        ensures right { Right (viewed scene.now) self.new.kept self.new.numbers self.new.roots.items }
        ensures copies { result.copies ≡ length (laid_copies (viewed scene.now)) }
        ensures edges { result.edges ≡ length (laid_edges (viewed scene.now)) }
    {
        let (boards, vertices) = (scene.boards(), scene.vertices());
        let read = corners(scene);
        let cells = &read[..scene.cells()];
        let own = own_vertices(scene, cells);
        let near = keepers(scene, cells, &own);
        flag_all(&near, &mut self.kept);
        let copies = number_all(&self.kept[..boards], vertices, &mut self.numbers);
        let roots = roots(&owners(scene, &own)[..vertices], boards);
        let edges = copies - roots.len();
        self.roots = roots;
        self.boards = boards;
        self.vertices = vertices;
        LaidCounts { copies, edges }
    }
}
