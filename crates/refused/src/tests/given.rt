// The two triangles: their scene, their plan, and how a run of them starts.
use element::depth::Depth;
use exchange::fault::RunFault;
use exchange::run::Turning;
use exchange::run::load::load;
use medium::frame::Frame;
use medium::medium::Medium;
use plan::records::{CopyRecord, Edge};
use plan::view::PlanView;
use protocol::table::LinkTable;
use scene::view::SceneView;
use std::test::Fail;

// Board 0 owns the cell 0 1 2 with depths 5 7 1, board 1 the cell 1 3 2 with depths 4 9 6.
pub const SCENE: &[u8; 104] = b"SC\x01\x02\x02\x00\x04\x00\x02\x00\
CE\x00\x00\x00\x00\x01\x00\x02\x00\
\x05\x00\x00\x00\x00\x00\x00\x00\x00\x00\x00\x00\
\x07\x00\x00\x00\x00\x00\x00\x00\x00\x00\x00\x00\
\x01\x00\x00\x00\x00\x00\x00\x00\x00\x00\x00\x00\
CE\x01\x00\x01\x00\x03\x00\x02\x00\
\x04\x00\x00\x00\x00\x00\x00\x00\x00\x00\x00\x00\
\x09\x00\x00\x00\x00\x00\x00\x00\x00\x00\x00\x00\
\x06\x00\x00\x00\x00\x00\x00\x00\x00\x00\x00\x00\
EN";

pub const COPIES: [CopyRecord; 6] = [
    CopyRecord {
        board: 0,
        vertex: 0,
    },
    CopyRecord {
        board: 0,
        vertex: 1,
    },
    CopyRecord {
        board: 0,
        vertex: 2,
    },
    CopyRecord {
        board: 1,
        vertex: 1,
    },
    CopyRecord {
        board: 1,
        vertex: 2,
    },
    CopyRecord {
        board: 1,
        vertex: 3,
    },
];

pub const EDGES: [Edge; 2] = [
    Edge {
        from: 1,
        to: 0,
        vertex: 1,
        leaf: 3,
        root: 1,
    },
    Edge {
        from: 1,
        to: 0,
        vertex: 2,
        leaf: 4,
        root: 2,
    },
];

pub const NO_DEPTHS: [Depth; 6] = [Depth { value: 0 }; 6];

pub const SOME_FRAME: Frame = Frame {
    reply: true,
    item: None,
};

// A view of the scene; were it refused, of one without cells.
pub(crate) fn scene() -> SceneView<'static> {
    let mut scene = SceneView::new();
    let _ = scene.take(SCENE);
    scene
}

// A view of the plan; were it refused, of one without records.
pub(crate) fn plan() -> PlanView<'static> {
    let mut plan = PlanView::new();
    let _ = plan.take(2, &COPIES, &EDGES);
    plan
}

// A run of the two triangles, before its first turn.
pub(crate) fn started<D: Medium>(
    plan: &PlanView,
    table: &mut LinkTable,
    medium: &D,
    values: &mut [Depth],
) -> Result<Turning, Fail> {
    let scene = scene();
    let Ok(loaded) = load(&scene, plan, values) else {
        return Err(Fail::new("loading is refused"));
    };
    match loaded.start(plan, table, medium, values) {
        Ok(turning) => Ok(turning),
        Err((loaded, _)) => {
            loaded.discard();
            Err(Fail::new("the start is refused"))
        }
    }
}

// A refusal's number and its last value, if there is a refusal.
pub(crate) fn refusal<T: Drop>(answer: Result<T, RunFault>) -> Option<(usize, usize)> {
    let fault = answer.err()?;
    Some((fault.number(), fault.last()))
}
