// Runs each scene named by an argument as both programs do, and prints one line of what they list.
#![tactic(auto)]

use cabinet::programs::{list_halo, list_rough};
use std::{env, fs, io};

// Each byte by its place, summed.
fn digest(page: &[u8]) -> u64 {
    let mut sum: u64 = 0;
    let mut weight: u64 = 0;
    for byte in page {
        weight = weight % 65521 + 1;
        sum = sum.wrapping_add(weight.wrapping_mul(u64::from(*byte))) % 4294967296;
    }
    sum
}

// A refusal's own line, or the first two of a listing and the digest of all; on one line, without its end.
fn print_page(rt: &HostRuntime, page: &[u8]) -> io::Result<()> {
    let text = String::from_utf8_lossy(rt.alloc(), page)?;
    let mut lines = text.lines();
    let first = lines.next().unwrap_or("");
    match lines.next() {
        Some(second) => {
            let sum = digest(page);
            print!(rt; "{first}, {second}, digest {sum}")
        }
        None => print!(rt; "{first}"),
    }
}

fn print_case(rt: &HostRuntime, name: &str) -> io::Result<()> {
    let bytes = fs::read(rt, name)?;
    print!(rt; "{name}: ")?;
    print_page(rt, &list_halo(rt.alloc(), &bytes)?)?;
    print!(rt; "; rough: ")?;
    print_page(rt, &list_rough(rt.alloc(), &bytes)?)?;
    println!(rt; "")
}

fn main(rt: HostRuntime) -> io::Result<()> {
    for name in env::args(&rt)?.skip(1) {
        print_case(&rt, name.as_str())?;
    }
    Ok(())
}
