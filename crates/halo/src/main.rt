// Lists the run of a scene from standard input, over a quota of 8 over a queue.
#![tactic(auto)]

use cabinet::programs::list_halo;
use std::io;
use std::io::{Read, Write};

fn main(rt: HostRuntime) -> io::Result<()> {
    let mut bytes = Vec::new(rt.alloc());
    rt.stdin().read_to_end(&mut bytes)?;
    let page = list_halo(rt.alloc(), &bytes)?;
    rt.stdout().write_all(&page)
}
