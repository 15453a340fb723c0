// Lists the run of a scene from standard input, over a script over the medium of `halo`.
#![tactic(auto)]

use cabinet::programs::list_rough;
use std::io;
use std::io::{Read, Write};

fn main(rt: HostRuntime) -> io::Result<()> {
    let mut bytes = Vec::new(rt.alloc());
    rt.stdin().read_to_end(&mut bytes)?;
    let page = list_rough(rt.alloc(), &bytes)?;
    rt.stdout().write_all(&page)
}
