// What the two programs print, each over media of its own.
ghost use Rattle.std.specs.Prelude.{◌≡◌, IfOk};
ghost use Rattle.medium.specs.Scripts.{below_script, next_of};
ghost use Rattle.cabinet.specs.Listed.{EveryRunOfEachKind};
ghost use Rattle.cabinet.specs.Programs.{AlwaysSettles, HaloPage, IsOnePage, IsOpened, RoughPage};

use crate::listed::list;
use medium::queue::Queue;
use medium::quota::{Limit, Quota};
use medium::script::Script;
use std::alloc::{AllocError, Global};

// How many frames the quota lets wait in a lane.
const QUOTA: usize = 8;

fn plain() -> Quota<Queue>
    ensures { IsOpened result }
{
    let Ok(limit) = Limit::new(QUOTA) else {
        unreachable!()
    };
    Quota::over(Queue::new(), limit)
}

fn rough() -> Script<Quota<Queue>>
    ensures opened { IsOpened (below_script result) }
    ensures first { next_of result ≡ 0 }
{
    Script::over(plain())
}

// The page of `halo`: the scene that the bytes say is run over a quota over a queue. Every board is settled.
#[tactic(auto, using(crate::proofs::ProgramLemmas::is_halo_page, crate::proofs::ProgramLemmas::halo_settles))]
pub fn list_halo(heap: Global, bytes: &[u8]) -> Result<Vec<u8>, AllocError>
    ensures told { IfOk result (λ page. HaloPage bytes.now page.items) }
    ensures one { IsOnePage HaloPage }
    ensures settled { IfOk result (λ page. AlwaysSettles bytes.now page.items) }
    ensures promise { EveryRunOfEachKind }
{
    Ok(list(heap, bytes, plain())?)
}

// The page of `halo-rough`: over a script over the medium of `halo`.
#[tactic(auto, using(crate::proofs::ProgramLemmas::is_rough_page))]
pub fn list_rough(heap: Global, bytes: &[u8]) -> Result<Vec<u8>, AllocError>
    ensures told { IfOk result (λ page. RoughPage bytes.now page.items) }
    ensures one { IsOnePage RoughPage }
    ensures promise { EveryRunOfEachKind }
{
    Ok(list(heap, bytes, rough())?)
}
