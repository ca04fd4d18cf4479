//! Measures the pool on its own: claims of objects, and pops and pushes of buffers, on a number of threads.
//!
//! `bench/pool.sh` runs this program and the same work with std only (`bench/std_baseline.rs`). `docs/PERFORMANCE.md`
//! has the results. The program's arguments are numbers: see `src/sizes.rt`.

#![tactic(auto)]

mod claims;
mod roots;
mod runs;
mod sizes;
mod turns;
mod workers;

use anyhow::Result;
use runs::{run_claims, run_turns};
use sizes::sizes_of;
use std::env;

fn main(rt: HostRuntime) -> Result<()> {
    let words: Vec<String> = env::args(&rt)?.collect(rt.alloc())?;
    let sizes = sizes_of(words.as_slice())?;
    run_claims(&rt, rt.alloc(), sizes)?;
    run_turns(&rt, rt.alloc(), sizes)
}
