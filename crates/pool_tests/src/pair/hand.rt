//! A worker with its pair, in a pool whose objects are all roots.
ghost use Rattle.std.specs.Prelude.{◌≡◌, ◌⊎◌, [], ◌∷◌, IfNone, IfOk, true};
ghost use Rattle.mark_core.specs.Events.{IsBusy};
ghost use Rattle.mark_core.specs.Shares.{whole};
ghost use Rattle.work_pair.specs.PairState.{HasStopped, IsBacked};
ghost use Rattle.pool_tests.specs.Ready.{IsReady, IsWorker};

use crate::edges::Roots;
use buffer_pool::{Pool, PoolFault, Worker};
use std::alloc::Allocator;
use std::process::Abort;
use std::sync::Wait;
use work_pair::{Pair, Stop};

/// The number of objects of the pool in each test.
pub(crate) const OBJECTS: u32 = 400;

/// The numbers that [`Pair::lens`] returns: of the objects in the first buffer, in the second, and in the buffer that a
/// stopped call left. `None` if there is no buffer.
pub(crate) type Lens = [Option<u32>; 3];

/// Creates a pool whose objects are all roots. Returns it with its worker.
pub(crate) fn pool_of_roots<A: Allocator + Copy>(
    alloc: A,
    buffers: u32,
    size: u32,
    first_tag: u64,
) -> Result<(Pool<A>, Worker<A>), PoolFault>
    ensures worker { IfOk result (λ p. IsWorker OBJECTS p.0 p.1) }
    ensures share { IfOk result (λ p. p.1.book.account.share ≡ whole) }
{
    Pool::new(alloc, &Roots { objects: OBJECTS }, buffers, size, first_tag)
}

/// Opens a pair. The empty stack must have two buffers for it.
pub(crate) fn open<R: Wait + Abort, A: Allocator>(
    rt: &R,
    alloc: A,
    pool: &Pool<A>,
    worker: &mut Worker<A>,
) -> Pair<A>
    requires { IsWorker OBJECTS pool.now worker.old }
    ensures worker { IsWorker OBJECTS pool.now worker.new }
    ensures ready { IsReady OBJECTS pool.now worker.new result }
    ensures none_spilled { result.spill ≡ [] }
{
    match Pair::open(rt, alloc, pool, worker) {
        Ok(Some(pair)) => pair,
        Ok(None) => panic!(rt; "there are two buffers"),
        Err(_) => panic!(rt; "no tag is near the last one"),
    }
}

/// Creates a pair without buffers.
pub(crate) fn bare<A: Allocator>(alloc: A, pool: &Pool<A>, worker: &Worker<A>) -> Pair<A>
    requires { IsWorker OBJECTS pool.now worker.now }
    ensures ready { IsReady OBJECTS pool.now worker.now result }
    ensures none_spilled { result.spill ≡ [] }
{
    Pair::bare(alloc)
}

/// Claims `object`, which is white, for the pair.
pub(crate) fn claim<R: Abort, A: Allocator>(
    rt: &R,
    pool: &Pool<A>,
    worker: &mut Worker<A>,
    pair: &Pair<A>,
    object: u32,
)
    requires { IsReady OBJECTS pool.now worker.old pair.now }
    ensures worker { IsWorker OBJECTS pool.now worker.new }
    ensures backed { IsBacked pair.now (object ∷ []) worker.new.book }
    ensures busy { IsBusy worker.new.book.account }
{
    if object >= OBJECTS {
        panic!(rt; "it is an object");
    }
    if !pool.claim(worker, object) {
        panic!(rt; "the object was claimed before");
    }
}

/// Claims `object`, which is white, and puts it into the pair.
pub(crate) fn put<R: Wait + Abort, A: Allocator>(
    rt: &R,
    pool: &Pool<A>,
    worker: &mut Worker<A>,
    pair: &mut Pair<A>,
    object: u32,
)
    requires { IsReady OBJECTS pool.now worker.old pair.old }
    ensures { IsReady OBJECTS pool.now worker.new pair.new }
{
    claim(rt, pool, worker, pair, object);
    let Ok(()) = pair.put(rt, pool, worker, object) else {
        panic!(rt; "no tag is near the last one, and there is memory");
    };
}

/// Claims `object`, which is white, and puts it in vain: there is no buffer and no memory for it.
pub(crate) fn put_in_vain<R: Wait + Abort, A: Allocator>(
    rt: &R,
    pool: &Pool<A>,
    worker: &mut Worker<A>,
    pair: &mut Pair<A>,
    object: u32,
)
    requires { IsReady OBJECTS pool.now worker.old pair.old }
    ensures ready { IsReady OBJECTS pool.now worker.new pair.new }
    ensures starved { pair.new.starved ≡ true }
{
    claim(rt, pool, worker, pair, object);
    let Err((back, Stop::OutOfMemory)) = pair.put(rt, pool, worker, object) else {
        panic!(rt; "no tag is near the last one, and there is no memory");
    };
    assert!(rt; back == object);
}

/// Gets an object. Returns `None` if no object is left; then the spill list is empty too.
pub(crate) fn get<R: Wait + Abort, A: Allocator>(
    rt: &R,
    pool: &Pool<A>,
    worker: &mut Worker<A>,
    pair: &mut Pair<A>,
) -> Option<u32>
    requires { IsReady OBJECTS pool.now worker.old pair.old }
    ensures ready { IsReady OBJECTS pool.now worker.new pair.new }
    ensures none { IfNone result (pair.new.spill ≡ []) }
    ensures none_spilled { pair.old.spill ≡ [] → pair.new.spill ≡ [] }
{
    match pair.get(rt, pool, worker) {
        Ok(Some(object)) => Some(object),
        Ok(None) => None,
        Err(_) => panic!(rt; "no tag is near the last one"),
    }
}

/// Gives work to others, by [`Pair::balance`].
pub(crate) fn balance<R: Wait + Abort, A: Allocator>(
    rt: &R,
    pool: &Pool<A>,
    worker: &mut Worker<A>,
    pair: &mut Pair<A>,
)
    requires { IsReady OBJECTS pool.now worker.old pair.old }
    ensures { IsReady OBJECTS pool.now worker.new pair.new }
{
    let Ok(()) = pair.balance(rt, pool, worker) else {
        panic!(rt; "no tag is near the last one");
    };
}

/// Gives the work in the pair's buffers to others, by [`Pair::publish`].
pub(crate) fn publish<R: Wait + Abort, A: Allocator>(
    rt: &R,
    pool: &Pool<A>,
    worker: &mut Worker<A>,
    pair: &mut Pair<A>,
)
    requires { IsReady OBJECTS pool.now worker.old pair.old }
    ensures { IsReady OBJECTS pool.now worker.new pair.new }
{
    let Ok(()) = pair.publish(rt, pool, worker) else {
        panic!(rt; "no tag is near the last one");
    };
}

/// Tests whether the full stack is seen empty.
pub(crate) fn full_is_empty<A: Allocator>(
    pool: &Pool<A>,
    worker: &mut Worker<A>,
    pair: &Pair<A>,
) -> bool
    requires { IsReady OBJECTS pool.now worker.old pair.now }
    ensures { IsReady OBJECTS pool.now worker.new pair.now }
{
    pool.sees_empty(worker, buffer_pool::Which::Full)
}

/// Returns the numbers of objects in `left`, whose disposal was stopped by a last tag, as `stop` says.
fn lens_of_stopped<R: Abort, A: Allocator>(rt: &R, left: &Pair<A>, stop: Stop) -> Lens {
    let Stop::TagSpent(_) = stop else {
        panic!(rt; "it takes no memory");
    };
    left.lens()
}

/// Disposes of the pair. Returns `None`, or, if a last tag stops the disposal, the numbers of objects in the pair that
/// remains.
pub(crate) fn dispose<R: Wait + Abort, A: Allocator>(
    rt: &R,
    pool: &Pool<A>,
    worker: &mut Worker<A>,
    pair: Pair<A>,
) -> Option<Lens>
    requires worker { IsWorker OBJECTS pool.now worker.old }
    requires backed { IsBacked pair [] worker.old.book }
    requires spill { (pair.spill ≡ []) ⊎ HasStopped pair }
    ensures { IsWorker OBJECTS pool.now worker.new }
{
    match pair.dispose(rt, pool, worker) {
        Ok(()) => None,
        Err((left, stop)) => Some(lens_of_stopped(rt, &left, stop)),
    }
}
