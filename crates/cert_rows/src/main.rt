//! Reads bytes as a certificate, an open file and an evade file, checks them whole and in pieces, and
//! judges totals by them, as the lines of standard input say, and prints what each came to.
#![tactic(auto)]

mod answer;
mod bench;
mod digits;
mod judging;
mod pieces;

use anyhow::Result;
use bench::Bench;

fn main(rt: HostRuntime) -> Result<()> {
    let mut bench = Bench::new(rt.alloc());
    for line in rt.lines(rt.alloc()) {
        bench.step(&rt, line?.as_str())?;
    }
    Ok(())
}
