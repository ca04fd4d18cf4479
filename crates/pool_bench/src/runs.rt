//! The two runs. Each prints its counts to standard output, and its time to standard error.

use crate::claims::claim_all;
use crate::roots::pool_of_roots;
use crate::sizes::Sizes;
use crate::turns::turn_all;
use crate::workers::split_among;
use anyhow::Result;
use std::alloc::Global;
use std::rt::Clock;
use std::sync::Wait;
use std::thread::Threads;
use std::time::Instant;

/// Claims each object of a pool in each pass. Prints the number of claims, and how many of them found a white object.
pub(crate) fn run_claims<R: Threads + Clock + Print + Eprint + Sync>(
    rt: &R,
    alloc: Global,
    sizes: Sizes,
) -> Result<()> {
    let (pool, worker) = pool_of_roots(alloc, sizes.objects)?;
    let workers = split_among(alloc, &pool, worker, sizes.threads)?;
    let start = Instant::now(rt)?;
    let white = claim_all(rt, &pool, workers, sizes)?;
    let took = start.elapsed(rt)?;
    let claims = u64::from(sizes.objects) * u64::from(sizes.passes);
    println!(rt; "claims {claims}\nwhite {white}")?;
    eprintln!(rt; "claims took {} ns", took.as_nanos())?;
    Ok(())
}

/// Takes `sizes.turns` turns on each thread. Each turn pops from the empty stack of a pool and pushes there. Prints how
/// many turns popped and pushed a buffer, as the number of pops and as that of pushes.
pub(crate) fn run_turns<R: Threads + Wait + Clock + Print + Eprint + Sync>(
    rt: &R,
    alloc: Global,
    sizes: Sizes,
) -> Result<()> {
    let (pool, worker) = pool_of_roots(alloc, 0)?;
    let workers = split_among(alloc, &pool, worker, sizes.threads)?;
    let start = Instant::now(rt)?;
    let moved = turn_all(rt, &pool, workers, sizes.turns)?;
    let took = start.elapsed(rt)?;
    println!(rt; "pops {moved}\npushes {moved}")?;
    eprintln!(rt; "pops and pushes took {} ns", took.as_nanos())?;
    Ok(())
}
