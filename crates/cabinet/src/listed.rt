// The listing of a scene's run.
ghost use Rattle.std.specs.Prelude.{◌≡◌, ◌≤◌, ◌++◌, length, IfOk};
ghost use Rattle.scene.specs.Views.{viewed};
ghost use Rattle.medium.specs.Calls.{rules_of};
ghost use Rattle.plan.specs.Links.{shape};
ghost use Rattle.exchange.specs.Going.{LaidPlan};
ghost use Rattle.circles.specs.Chains.{all_settled, snapshot};
ghost use Rattle.circles.specs.Circles.{SettleAnswers};
ghost use Rattle.cabinet.specs.Pages.{Paged, boards_page, head_page, refused_page, table_report};
ghost use Rattle.cabinet.specs.Listed.{EveryRunOfEachKind, circle_limit, record_room, RunTold, KindTold, PageTold};

use crate::outcome::{Outcome, Run};
use crate::page::add_line;
use crate::prepare::prepare;
use circles::goal::AllSettled;
use circles::settle::{Settling, settle};
use element::depth::Depth;
use element::element::Element;
use element::force::Force;
use element::kind::Kind;
use element::tags::Tags;
use exchange::run::Turning;
use exchange::run::book::end_by_the_book;
use exchange::run::drive::begin;
use listing::lines::{PlanNumbers, refusal_line};
use medium::medium::Medium;
use plan::records::{CopyRecord, Edge};
use plan::view::PlanView;
use protocol::fault::RunFault;
use protocol::table::LinkTable;
use refusals::refusal::Refusal;
use scene::view::SceneView;
use std::alloc::{AllocError, Global};

// How many records and copies there is memory for, and how many circles are made at most.
// Kept: arrays of this length, one for each element type. Tried with a type parameter: that the array fits stays open.
const MEMORY: usize = 4096;

const CIRCLES: usize = 100000;

fn list_refusal(heap: Global, refusal: Refusal) -> Result<Vec<u8>, AllocError>
    ensures { IfOk result (λ page. page.items ≡ refused_page refusal) }
{
    let mut page = Vec::new(heap);
    add_line(&mut page, &refusal_line(refusal.number(), refusal.last()))?;
    Ok(page)
}

// Ends the run if all boards are settled, or else gives it up, and lists it.
fn list_turned<'a, E: Element>(
    heap: Global,
    numbers: PlanNumbers,
    turning: Turning,
    plan: &'a PlanView<'a>,
    table: &'a LinkTable,
    values: &'a [E],
) -> Result<Vec<u8>, AllocError>
    requires room { length plan.now.copies.now ≤ length values.now }
    ensures { IfOk result (λ page. page.items ≡ head_page numbers turning.tally
        ++ boards_page E.Element.algebra
        (table_report plan.now.boards plan.now.edges.now table.now.links)
        plan.now.copies.now values.now plan.now.boards) }
{
    match end_by_the_book::<E>(turning, plan, table) {
        Ok((ended, tally)) => {
            let run = Run {
                outcome: Outcome::Ended(&ended),
                plan,
                table,
                values,
            };
            let page = run.list(heap, numbers, tally);
            let _ = ended.close();
            page
        }
        Err((turning, _)) => {
            let run = Run {
                outcome: Outcome::Open(&turning),
                plan,
                table,
                values,
            };
            let page = run.list(heap, numbers, turning.tally());
            let _ = turning.abandon();
            page
        }
    }
}

// Circles until every board is settled, or as many as are made at most.
fn settle_all<E: Element, D: Medium>(
    turning: &mut Turning,
    plan: &PlanView,
    table: &mut LinkTable,
    medium: &mut D,
    values: &mut [E],
) -> Result<Settling, RunFault>
    ensures { SettleAnswers E.algebra (rules_of D.lanes D.takes D.puts)
        plan.now.boards plan.now.copies.now plan.now.edges.now
        (all_settled (shape plan.now.boards plan.now.edges.now)) circle_limit
        (snapshot turning.old.tally table.old.links values.old medium.old)
        (snapshot turning.new.tally table.new.links values.new medium.new) result }
{
    settle(turning, plan, table, medium, values, &AllSettled, CIRCLES)
}

// Runs a scene with elements of one type, and lists what its boards hold at the end.
// Kept, here and below: a result in a result. A refusal is listed too, and for any page there may be no memory.
fn list_run<E: Element, D: Medium + Drop>(
    heap: Global,
    scene: &SceneView,
    plan: &PlanView,
    medium: D,
    values: &mut [E],
) -> Result<Result<Vec<u8>, AllocError>, Refusal>
    requires laid { LaidPlan (viewed scene.now) plan.now.boards plan.now.copies.now
        plan.now.edges.now }
    requires kind { (viewed scene.now).kind ≡ E.Element.algebra.kind }
    requires room { length plan.now.copies.now ≤ length values.old }
    ensures { Paged result (RunTold E.algebra (rules_of D.lanes D.takes D.puts)
        (viewed scene.now) medium) }
{
    let values = &mut values[..plan.copies().len()];
    let mut medium = medium;
    let mut table = LinkTable::new();
    let mut turning = begin(scene, plan, &mut table, &medium, values)?;
    let _ = settle_all(&mut turning, plan, &mut table, &mut medium, values);
    let numbers = PlanNumbers {
        boards: scene.boards(),
        overlap: scene.overlap(),
        kind: u8::from(scene.kind()),
        copies: plan.copies().len(),
        edges: plan.edges().len(),
    };
    Ok(list_turned(heap, numbers, turning, plan, &table, values))
}

fn list_plan<'a, D: Medium + Drop>(
    heap: Global,
    scene: &SceneView,
    copies: &'a [CopyRecord],
    edges: &'a [Edge],
    medium: D,
) -> Result<Result<Vec<u8>, AllocError>, Refusal>
    requires laid { LaidPlan (viewed scene.now) (viewed scene.now).boards copies.now edges.now }
    requires room { length copies.now ≤ record_room }
    ensures { Paged result (KindTold (rules_of D.lanes D.takes D.puts) (viewed scene.now) medium) }
{
    let mut plan: PlanView = PlanView::new();
    plan.take(scene.boards(), copies, edges)?;
    match scene.kind() {
        Kind::Force => list_run(
            heap,
            scene,
            &plan,
            medium,
            &mut [Force { x: 0, y: 0, z: 0 }; MEMORY],
        ),
        Kind::Depth => list_run(
            heap,
            scene,
            &plan,
            medium,
            &mut [Depth { value: 0 }; MEMORY],
        ),
        Kind::Tags => list_run(
            heap,
            scene,
            &plan,
            medium,
            &mut [Tags { low: 0, high: 0 }; MEMORY],
        ),
    }
}

// Lays out the scene that the bytes say, and runs it.
fn list_scene<D: Medium + Drop>(
    heap: Global,
    bytes: &[u8],
    medium: D,
) -> Result<Result<Vec<u8>, AllocError>, Refusal>
    ensures { Paged result (PageTold (rules_of D.lanes D.takes D.puts) bytes.now medium) }
{
    let mut copies = [CopyRecord {
        board: 0,
        vertex: 0,
    }; MEMORY];
    let mut edges = [Edge {
        from: 0,
        to: 0,
        vertex: 0,
        leaf: 0,
        root: 0,
    }; MEMORY];
    let mut scene = SceneView::new();
    let counts = prepare(&mut scene, bytes, &mut copies, &mut edges)?;
    list_plan(
        heap,
        &scene,
        &copies[..counts.copies],
        &edges[..counts.edges],
        medium,
    )
}

// The listing of the scene that the bytes say, run over this medium; or the one line of a refusal.
#[tactic(auto, using(crate::proofs::Runs::each_kind_keeps_the_promise))]
pub fn list<D: Medium + Drop>(heap: Global, bytes: &[u8], medium: D) -> Result<Vec<u8>, AllocError>
    ensures told { IfOk result (λ page. PageTold (rules_of D.lanes D.takes D.puts) bytes.now medium page.items) }
    ensures promise { EveryRunOfEachKind }
{
    match list_scene(heap, bytes, medium) {
        Ok(page) => page,
        Err(refusal) => list_refusal(heap, refusal),
    }
}
