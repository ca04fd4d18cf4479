//! Tests that a stopped pair keeps each buffer that it could not push. A last tag stops the pair in the middle of a
//! call, before the call changed anything, or at the disposal.
ghost use Rattle.std.specs.Prelude.{[]};
ghost use Rattle.work_pair.specs.PairState.{HasStopped, IsBacked};
ghost use Rattle.pool_tests.specs.Ready.{IsReady, IsWorker};

use super::hand::{Lens, OBJECTS, bare, claim, dispose, get, open, pool_of_roots};
use super::runs::{Step, go_through};
use crate::messages::check_words;
use Step::{Fill, Get};
use buffer_pool::{Pool, PoolFault, Worker};
use std::alloc::{Allocator, Global};
use std::process::Abort;
use std::sync::Wait;
use std::test::Fail;
use work_pair::{Pair, Stop};

/// The last tag of a stack's head.
const LAST_TAG: u64 = 281_474_976_710_655;

/// The call that is stopped.
#[derive(Clone, Copy)]
enum Call {
    /// Puts an object.
    Puts(u32),
    /// Gets an object of the full stack.
    Gets,
}

/// What the positions of a pair have after a last tag stopped a call, and what they have if a last tag then stops the
/// disposal too.
type Stopped = (Lens, Option<Lens>);

/// Claims `object`, which is white, and tries to put it. A last tag stops the put.
fn put_and_stop<R: Wait + Abort, A: Allocator>(
    rt: &R,
    pool: &Pool<A>,
    worker: &mut Worker<A>,
    pair: &mut Pair<A>,
    object: u32,
)
    requires { IsReady OBJECTS pool.now worker.old pair.old }
    ensures worker { IsWorker OBJECTS pool.now worker.new }
    ensures backed { IsBacked pair.new [] worker.new.book }
    ensures stopped { HasStopped pair.new }
{
    claim(rt, pool, worker, pair, object);
    let Err((back, Stop::TagSpent(_))) = pair.put(rt, pool, worker, object) else {
        panic!(rt; "a last tag was to be loaded");
    };
    assert!(rt; back == object);
}

/// Makes [`put_and_stop`], and then disposes of the pair.
fn stopped_by_put<R: Wait + Abort, A: Allocator>(
    rt: &R,
    pool: &Pool<A>,
    worker: &mut Worker<A>,
    mut pair: Pair<A>,
    object: u32,
) -> Stopped
    requires { IsReady OBJECTS pool.now worker.old pair }
{
    put_and_stop(rt, pool, worker, &mut pair, object);
    (pair.lens(), dispose(rt, pool, worker, pair))
}

/// Tries to get an object of the full stack. A last tag stops the call. Then disposes of the pair.
fn stopped_by_get<R: Wait + Abort, A: Allocator>(
    rt: &R,
    pool: &Pool<A>,
    worker: &mut Worker<A>,
    mut pair: Pair<A>,
) -> Stopped
    requires { IsReady OBJECTS pool.now worker.old pair }
{
    let Err(_) = pair.get(rt, pool, worker) else {
        panic!(rt; "a last tag was to be loaded");
    };
    (pair.lens(), dispose(rt, pool, worker, pair))
}

/// Pops a buffer from the full stack, takes an object from it, and gives the buffer back: two exchanges of the full
/// head, and none of the empty head.
fn exchange_full_twice<R: Wait + Abort, A: Allocator>(
    rt: &R,
    alloc: A,
    pool: &Pool<A>,
    worker: &mut Worker<A>,
)
    requires { IsWorker OBJECTS pool.now worker.old }
    ensures { IsWorker OBJECTS pool.now worker.new }
{
    let mut pair = bare(alloc, pool, worker);
    let is_got = get(rt, pool, worker, &mut pair).is_some();
    let is_gone = dispose(rt, pool, worker, pair).is_none();
    assert!(rt; is_got, "there is a buffer with objects");
    assert!(rt; is_gone);
}

/// Calls [`exchange_full_twice`] `times` times.
fn exchange_full<R: Wait + Abort, A: Allocator + Copy>(
    rt: &R,
    alloc: A,
    pool: &Pool<A>,
    worker: &mut Worker<A>,
    times: u32,
)
    requires { IsWorker OBJECTS pool.now worker.old }
    ensures { IsWorker OBJECTS pool.now worker.new }
{
    for _ in 0..times {
        exchange_full_twice(rt, alloc, pool, worker);
    }
}

/// The steps of a pair, how often another worker then calls [`exchange_full_twice`], and the call that a last tag
/// stops.
type Stops = (&'static [Step], u32, Call);

/// Opens a pair for `worker` and makes its steps of `stops`. Lets `other` exchange the full head. Then makes the call.
fn stopped_in<R: Wait + Abort>(
    rt: &R,
    alloc: Global,
    pool: &Pool<Global>,
    worker: &mut Worker<Global>,
    other: &mut Worker<Global>,
    stops: Stops,
) -> Stopped
    requires worker { IsWorker OBJECTS pool.now worker.old }
    requires other { IsWorker OBJECTS pool.now other.old }
{
    let (steps, exchanges, call) = stops;
    let mut pair = open(rt, alloc, pool, worker);
    go_through(rt, pool, worker, &mut pair, steps);
    exchange_full(rt, alloc, pool, other, exchanges);
    match call {
        Call::Puts(object) => stopped_by_put(rt, pool, worker, pair, object),
        Call::Gets => stopped_by_get(rt, pool, worker, pair),
    }
}

/// Calls [`stopped_in`] with the two workers of a new pool of four buffers for four objects.
fn stopped_after<R: Wait + Abort>(
    rt: &R,
    alloc: Global,
    first_tag: u64,
    stops: Stops,
) -> Result<Stopped, PoolFault> {
    let (pool, worker) = pool_of_roots(alloc, 4, 4, first_tag)?;
    let (mut worker, mut other) = pool.split(worker, 1);
    Ok(stopped_in(rt, alloc, &pool, &mut worker, &mut other, stops))
}

/// Tests what the positions of a pair have after `stops` in a pool with the first tag `first_tag`.
fn check_stopped<R: Wait + Abort>(
    rt: &R,
    alloc: Global,
    first_tag: u64,
    stops: Stops,
    wanted: Stopped,
) {
    let stopped = stopped_after(rt, alloc, first_tag, stops);
    assert!(rt; stopped == Ok(wanted), "from tag {first_tag} on");
}

/// A put takes a buffer from the empty stack, and cannot push the pair's full buffer. Each head may be exchanged five
/// times. The empty head is exchanged four times. The full head was exchanged five times before this put.
const PUT_AT_FULL: Stops = (&[Fill(12)], 2, Call::Puts(12));

/// A put finds the empty stack at its last tag: the empty head was exchanged three times. The full head was exchanged
/// once, and has tags left.
const PUT_AT_EMPTY: Stops = (&[Fill(12)], 0, Call::Puts(12));

/// A get takes a buffer from the full stack, and cannot push the pair's empty buffer: the empty stack's head was
/// exchanged three times.
const GET_AT_EMPTY: Stops = (&[Fill(9), Get(&[8, 7, 6, 5, 4])], 0, Call::Gets);

// Not a loop over a table: its check goes through each nested slice at each step.
#[test]
fn stopped_pairs_keep_their_buffers(rt: HostRuntime) {
    let put = [Some(4), Some(4), Some(0)];
    check_stopped(&rt, rt.alloc(), LAST_TAG - 5, PUT_AT_FULL, (put, Some(put)));
    let full = [Some(4), Some(4), None];
    check_stopped(&rt, rt.alloc(), LAST_TAG - 3, PUT_AT_EMPTY, (full, None));
    let got = [Some(0), Some(0), Some(4)];
    check_stopped(
        &rt,
        rt.alloc(),
        LAST_TAG - 3,
        GET_AT_EMPTY,
        (got, Some(got)),
    );
}

/// Returns the stop of a pair that was to be opened on a pool whose heads have the last tag.
fn stop_of_open<R: Wait + Abort>(rt: &R, alloc: Global) -> Result<Stop, PoolFault> {
    let (pool, mut worker) = pool_of_roots(alloc, 4, 4, LAST_TAG)?;
    let Err(stop) = Pair::open(rt, alloc, &pool, &mut worker) else {
        panic!(rt; "a last tag was to be loaded");
    };
    Ok(stop)
}

#[test]
fn each_stop_has_its_words(rt: HostRuntime) -> Result<(), Fail> {
    let spent = stop_of_open(&rt, rt.alloc())?;
    check_words(&rt, rt.alloc(), &spent, "a stack's last tag was loaded")?;
    Ok(check_words(&rt, rt.alloc(), &Stop::OutOfMemory, "out of memory")?)
}
