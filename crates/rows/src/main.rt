//! Runs the program's commands over files in memory, as the lines of standard input say, and prints
//! what each gave and put.
#![tactic(auto)]

mod bench;
mod printing;

use anyhow::Result;
use bench::Bench;

fn main(rt: HostRuntime) -> Result<()> {
    let mut bench = Bench::new(rt.alloc());
    for line in rt.lines(rt.alloc()) {
        bench.step(&rt, line?.as_str())?;
    }
    Ok(())
}
