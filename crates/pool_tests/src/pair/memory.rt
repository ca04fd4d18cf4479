//! Tests of a pair whose spill list runs out of memory. While the list need not grow, the calls of a pair make no
//! allocation.
ghost use Rattle.std.specs.Prelude.{◌≤◌, IfOk};
ghost use Rattle.pool_tests.specs.Ready.{IsWorker};

use super::hand::{Lens, OBJECTS, bare, pool_of_roots};
use super::runs::{End, Run, Step, left_after};
use End::AllGot;
use Step::{Balance, Fill, FullIsEmpty, Get, Has, InVain, NoneLeft, Publish, Put, Spilled};
use buffer_pool::{Pool, PoolFault, Worker};
use limited_heap::LimitedHeap;
use std::alloc::{Allocator, Global};
use std::process::Abort;
use std::sync::Wait;

/// More requests for memory than the opening of a pool of these tests makes.
const MANY: u64 = 1 << 32;

/// The requests for memory that are refused after the opening of a pool.
#[derive(Clone, Copy, Debug)]
enum Refused {
    /// All.
    Each,
    /// All but this many, which come first.
    AllAfter(u32),
    /// The first, and no other.
    First,
}

/// Opens a pool of four buffers for two objects each, and drops it.
fn open_pool<A: Allocator + Copy>(alloc: A) -> Result<(), PoolFault> {
    let _pool = pool_of_roots(alloc, 4, 2, 0)?;
    Ok(())
}

/// Returns how many requests [`open_pool`] makes.
fn requests_of_a_pool(alloc: Global) -> Result<u64, PoolFault>
    ensures { IfOk result (λ n. n ≤ MANY) }
{
    let heap = LimitedHeap::new(alloc, MANY);
    open_pool(&heap)?;
    Ok(MANY - heap.requests_left())
}

/// Creates a heap that grants the requests of the opening of a pool of four buffers, and refuses `refused` after them.
fn heap_of_a_pool(alloc: Global, refused: Refused) -> Result<LimitedHeap<Global>, PoolFault> {
    let requests = requests_of_a_pool(alloc)?;
    Ok(match refused {
        Refused::Each => LimitedHeap::new(alloc, requests),
        Refused::AllAfter(granted) => LimitedHeap::new(alloc, requests + u64::from(granted)),
        Refused::First => LimitedHeap::refusing(alloc, requests),
    })
}

/// If the spill list cannot have its first block, the ninth object is returned, and the other eight are got as usual.
const NINTH: Run = (
    "the ninth in vain",
    &[
        Fill(8),
        InVain(8),
        Has([Some(2), Some(2), None]),
        Get(&[5, 4, 7, 6, 3, 2, 1, 0]),
    ],
    AllGot,
);

/// If the spill list has a block but cannot have a larger one, the thirteenth object is returned, and the list's four
/// objects are given up when the pair is disposed of.
const THIRTEENTH: Run = (
    "the thirteenth in vain",
    &[Fill(12), Spilled(4)],
    End::InVain(12, 4),
);

/// Each block of the spill list is twice as large as the one before. So six blocks have room for 128 objects, and the
/// next object is returned.
const DOUBLED: Run = (
    "the seventh block in vain",
    &[Fill(136), Spilled(128)],
    End::InVain(136, 128),
);

/// If the spill list's first block is refused once, the ninth object is returned, and the next object is put and got as
/// usual. Each of the two puts has exchanged the pair's buffers, so the buffers are at their first positions again.
const TENTH: Run = (
    "the tenth behind a ninth in vain",
    &[
        Fill(8),
        InVain(8),
        Put(9),
        Spilled(1),
        Get(&[9, 7, 6, 5, 4, 3, 2, 1, 0]),
    ],
    AllGot,
);

/// The calls of a pair make no allocation while there is room.
const SIX: Run = (
    "six objects",
    &[
        Fill(5),
        Balance,
        FullIsEmpty(false),
        Get(&[4, 3, 2, 1, 0]),
        NoneLeft,
        FullIsEmpty(true),
        Put(5),
        Publish,
        FullIsEmpty(false),
        Get(&[5]),
        NoneLeft,
        Spilled(0),
    ],
    AllGot,
);

/// Makes `run` on a heap that refuses `refused` after the opening of the pool. Returns what is left of the pair, or
/// `None` if nothing is, and how many requests were refused.
fn refused_in<R: Wait + Abort>(
    rt: &R,
    alloc: Global,
    run: Run,
    size: u32,
    refused: Refused,
) -> Result<(Option<Lens>, u64), PoolFault> {
    let heap = heap_of_a_pool(alloc, refused)?;
    let left = left_after(rt, &heap, run, size, 0);
    let refusals = heap.refusals();
    Ok((left?, refusals))
}

/// Tests that nothing is left of the pair after `run`, and that `refusals` requests were refused.
fn check_run<R: Wait + Abort>(
    rt: &R,
    alloc: Global,
    run: Run,
    size: u32,
    refused: Refused,
    refusals: u64,
) {
    let ended = refused_in(rt, alloc, run, size, refused);
    assert!(rt; ended == Ok((None, refusals)), "{}", run.0);
}

// Not a loop over a table: its check goes through each nested slice at each step.
#[test]
fn runs_without_memory(rt: HostRuntime) {
    check_run(&rt, rt.alloc(), NINTH, 2, Refused::Each, 1);
    check_run(&rt, rt.alloc(), THIRTEENTH, 2, Refused::AllAfter(1), 1);
    check_run(&rt, rt.alloc(), DOUBLED, 2, Refused::AllAfter(6), 1);
    check_run(&rt, rt.alloc(), TENTH, 2, Refused::First, 1);
    // The run of six objects makes no request: the heap would refuse each, and refuses none.
    check_run(&rt, rt.alloc(), SIX, 8, Refused::Each, 0);
}

/// Returns what the positions of a pair without buffers have.
fn lens_of_bare<A: Allocator>(alloc: A, pool: &Pool<A>, worker: &Worker<A>) -> Lens
    requires { IsWorker OBJECTS pool.now worker.now }
{
    bare(alloc, pool, worker).lens()
}

/// Calls [`lens_of_bare`] in a new pool.
fn bare_lens<A: Allocator + Copy>(alloc: A) -> Result<Lens, PoolFault> {
    let (pool, worker) = pool_of_roots(alloc, 4, 8, 0)?;
    Ok(lens_of_bare(alloc, &pool, &worker))
}

/// Creates a pair without buffers on a heap that refuses every request after the opening of the pool. Returns what its
/// positions have, how many requests are left, and how many were refused.
fn bare_pair_without_memory(alloc: Global) -> Result<(Lens, u64, u64), PoolFault> {
    let heap = heap_of_a_pool(alloc, Refused::Each)?;
    let lens = bare_lens(&heap)?;
    Ok((lens, heap.requests_left(), heap.refusals()))
}

#[test]
fn a_bare_pair_takes_no_memory(rt: HostRuntime) {
    let ended = bare_pair_without_memory(rt.alloc());
    assert_eq!(rt; ended, Ok(([None; 3], 0, 0)));
}
