//! Small runs of one thread: the order in which objects are got, and how often the head of the empty stack changes.
ghost use Rattle.std.specs.Prelude.{◌≡◌, []};
ghost use Rattle.pool_tests.specs.Ready.{IsReady, IsWorker};

use super::hand::{Lens, OBJECTS, bare, dispose, open, pool_of_roots};
use super::runs::{End, Run, Step, go_through, left_after};
use End::AllGot;
use Step::{Balance, Fill, FullIsEmpty, Get, Has, NoneLeft, Put, Spilled};
use buffer_pool::{Pool, PoolFault, Worker};
use std::alloc::Global;
use std::process::Abort;
use std::sync::Wait;
use work_pair::Pair;

/// Puts five objects, balances, and gets all of them. The upper half stays in the pair, and the lower part is got from
/// the full stack.
const FIVE: Run = (
    "five objects",
    &[Fill(5), Balance, FullIsEmpty(false), Get(&[4, 3, 2, 1, 0])],
    AllGot,
);

/// Four objects are few: a balance does not move them.
const FOUR: Run = (
    "four objects",
    &[Fill(4), Balance, FullIsEmpty(true), Get(&[3, 2, 1, 0])],
    AllGot,
);

/// Four buffers for two objects each take eight objects. A ninth object goes to the spill list. Otherwise its put only
/// exchanges the pair's two buffers. The ninth object is got first.
const NINE: Run = (
    "nine objects",
    &[
        Fill(9),
        Has([Some(2), Some(2), None]),
        Spilled(1),
        Get(&[8, 5, 4, 7, 6, 3, 2, 1, 0]),
    ],
    AllGot,
);

/// Tests what is left of the pair after `run` with buffers of `size` objects and the first tag `first_tag`.
fn check_run<R: Wait + Abort>(
    rt: &R,
    alloc: Global,
    run: Run,
    size: u32,
    first_tag: u64,
    wanted: Option<Lens>,
) {
    let left = left_after(rt, alloc, run, size, first_tag);
    assert!(rt; left == Ok(wanted), "{} from tag {first_tag} on", run.0);
}

// Not a loop over a table: its check goes through each nested slice at each step.
#[test]
fn runs_of_one_pair(rt: HostRuntime) {
    check_run(&rt, rt.alloc(), FIVE, 8, 0, None);
    check_run(&rt, rt.alloc(), FOUR, 8, 0, None);
    // In the run `FIVE` the head of the empty stack changes six times. So its first tag must be at least six below the
    // last tag. If it is only five below, the last buffer cannot be pushed, and stays with the pair.
    check_run(&rt, rt.alloc(), FIVE, 8, 281_474_976_710_649, None);
    let left = Some([None, Some(0), None]);
    check_run(&rt, rt.alloc(), FIVE, 8, 281_474_976_710_650, left);
    check_run(&rt, rt.alloc(), NINE, 2, 0, None);
}

/// A pair without buffers takes two objects, both are got again, and the pair still has no buffer.
const TAKES_AND_GIVES: &[Step] = &[Fill(2), Get(&[1, 0]), NoneLeft, Has([None, None, None])];

/// At the next put, the pair takes a buffer, since the empty stack has one now.
const FINDS_A_BUFFER: &[Step] = &[Put(2), Has([Some(1), None, None]), FullIsEmpty(true)];

/// Makes the steps `TAKES_AND_GIVES` and then `FINDS_A_BUFFER` with `pair`, the pair of `worker`. Between them,
/// disposes of `one`, the pair of `other`. Returns what was left of `one`, or `None` if nothing was.
fn left_between<R: Wait + Abort>(
    rt: &R,
    pool: &Pool<Global>,
    worker: &mut Worker<Global>,
    pair: Pair<Global>,
    other: &mut Worker<Global>,
    one: Pair<Global>,
) -> Option<Lens>
    requires ready { IsReady OBJECTS pool.now worker.old pair }
    requires other { IsReady OBJECTS pool.now other.old one }
    requires none_spilled { one.spill ≡ [] }
{
    let mut pair = pair;
    go_through(rt, pool, worker, &mut pair, TAKES_AND_GIVES);
    let left = dispose(rt, pool, other, one);
    go_through(rt, pool, worker, &mut pair, FINDS_A_BUFFER);
    left
}

/// Calls [`left_between`] with a pair without buffers for `worker`. At first, pairs of `other` and `third` have all
/// four buffers.
fn left_beside_a_bare_pair<R: Wait + Abort>(
    rt: &R,
    alloc: Global,
    pool: &Pool<Global>,
    worker: &mut Worker<Global>,
    other: &mut Worker<Global>,
    third: &mut Worker<Global>,
) -> Option<Lens>
    requires worker { IsWorker OBJECTS pool.now worker.old }
    requires other { IsWorker OBJECTS pool.now other.old }
    requires third { IsWorker OBJECTS pool.now third.old }
{
    let one = open(rt, alloc, pool, other);
    let _two = open(rt, alloc, pool, third);
    let pair = bare(alloc, pool, worker);
    left_between(rt, pool, worker, pair, other, one)
}

/// Calls [`left_beside_a_bare_pair`] with three workers of a new pool.
fn left_in_new_pool<R: Wait + Abort>(rt: &R, alloc: Global) -> Result<Option<Lens>, PoolFault> {
    let (pool, worker) = pool_of_roots(alloc, 4, 2, 0)?;
    let (mut other, worker) = pool.split(worker, 2);
    let (mut third, mut worker) = pool.split(worker, 1);
    Ok(left_beside_a_bare_pair(rt, alloc, &pool, &mut worker, &mut other, &mut third))
}

/// A pair without buffers keeps what is put into it, and takes a buffer at the first put at which the empty stack has
/// one.
#[test]
fn a_bare_pair_takes_and_gives(rt: HostRuntime) {
    assert_eq!(rt; left_in_new_pool(&rt, rt.alloc()), Ok(None));
}
