//! Runs of a pair: lists of steps, and the functions that make the steps.
ghost use Rattle.std.specs.Prelude.{◌≡◌, ◌⊎◌, []};
ghost use Rattle.work_pair.specs.PairState.{HasStopped};
ghost use Rattle.pool_tests.specs.Ready.{IsReady, IsWorker};

use super::hand::{
    Lens, OBJECTS, balance, dispose, full_is_empty, get, open, pool_of_roots, publish, put,
    put_in_vain,
};
use buffer_pool::{Pool, PoolFault, Worker};
use std::alloc::Allocator;
use std::process::Abort;
use std::sync::Wait;
use work_pair::Pair;

/// A step: a call of a pair, or a test of it.
#[derive(Clone, Copy)]
pub(crate) enum Step {
    /// Puts a number of objects, from 0 on.
    Fill(u32),
    Put(u32),
    /// Puts an object for which there is no buffer and no memory.
    InVain(u32),
    Balance,
    Publish,
    /// Gets exactly these objects, in this order.
    Get(&'static [u32]),
    NoneLeft,
    FullIsEmpty(bool),
    /// The positions have these numbers of objects.
    Has(Lens),
    /// The spill list has this number of objects.
    Spilled(usize),
}

/// The end of a run. After it, the pair can be disposed of.
#[derive(Clone, Copy)]
pub(crate) enum End {
    /// No object is left, and the full stack is seen empty.
    AllGot,
    /// There is no buffer and no memory for the object of this number, and the spill list has this many objects.
    InVain(u32, usize),
}

/// A run: its name, its steps, and how it ends.
pub(crate) type Run = (&'static str, &'static [Step], End);

/// Puts `count` objects, from 0 on.
fn fill<R: Wait + Abort, A: Allocator>(
    rt: &R,
    pool: &Pool<A>,
    worker: &mut Worker<A>,
    pair: &mut Pair<A>,
    count: u32,
)
    requires { IsReady OBJECTS pool.now worker.old pair.old }
    ensures { IsReady OBJECTS pool.now worker.new pair.new }
{
    for object in 0..count {
        put(rt, pool, worker, pair, object);
    }
}

/// Gets objects, and tests that they are `wanted`, in this order.
fn get_all<R: Wait + Abort, A: Allocator>(
    rt: &R,
    pool: &Pool<A>,
    worker: &mut Worker<A>,
    pair: &mut Pair<A>,
    wanted: &[u32],
)
    requires { IsReady OBJECTS pool.now worker.old pair.old }
    ensures { IsReady OBJECTS pool.now worker.new pair.new }
{
    for object in wanted {
        assert!(rt; get(rt, pool, worker, pair) == Some(*object));
    }
}

/// Tests that no object is left.
fn get_none<R: Wait + Abort, A: Allocator>(
    rt: &R,
    pool: &Pool<A>,
    worker: &mut Worker<A>,
    pair: &mut Pair<A>,
)
    requires { IsReady OBJECTS pool.now worker.old pair.old }
    ensures ready { IsReady OBJECTS pool.now worker.new pair.new }
    ensures none_spilled { pair.new.spill ≡ [] }
{
    let None = get(rt, pool, worker, pair) else {
        panic!(rt; "these are all that were put");
    };
}

/// Tests whether the positions of the pair have the numbers of objects `wanted`.
fn has<A: Allocator>(pair: &Pair<A>, wanted: Lens) -> bool {
    pair.lens() == wanted
}

/// Makes one step. Returns `false` if the pair is not as the step says.
fn does<R: Wait + Abort, A: Allocator>(
    rt: &R,
    pool: &Pool<A>,
    worker: &mut Worker<A>,
    pair: &mut Pair<A>,
    step: Step,
) -> bool
    requires { IsReady OBJECTS pool.now worker.old pair.old }
    ensures { IsReady OBJECTS pool.now worker.new pair.new }
{
    match step {
        Step::Fill(count) => fill(rt, pool, worker, pair, count),
        Step::Put(object) => put(rt, pool, worker, pair, object),
        Step::InVain(object) => put_in_vain(rt, pool, worker, pair, object),
        Step::Balance => balance(rt, pool, worker, pair),
        Step::Publish => publish(rt, pool, worker, pair),
        Step::Get(wanted) => get_all(rt, pool, worker, pair, wanted),
        Step::NoneLeft => get_none(rt, pool, worker, pair),
        Step::FullIsEmpty(wanted) => return full_is_empty(pool, worker, pair) == wanted,
        Step::Has(wanted) => return has(pair, wanted),
        Step::Spilled(wanted) => return pair.spilled() == wanted,
    }
    true
}

/// Makes `steps`.
pub(crate) fn go_through<R: Wait + Abort, A: Allocator>(
    rt: &R,
    pool: &Pool<A>,
    worker: &mut Worker<A>,
    pair: &mut Pair<A>,
    steps: &[Step],
)
    requires { IsReady OBJECTS pool.now worker.old pair.old }
    ensures { IsReady OBJECTS pool.now worker.new pair.new }
{
    for step in steps {
        assert!(rt; does(rt, pool, worker, pair, *step));
    }
}

/// Ends a run as `end` says. Afterwards the pair can be disposed of.
fn finish<R: Wait + Abort, A: Allocator>(
    rt: &R,
    pool: &Pool<A>,
    worker: &mut Worker<A>,
    pair: &mut Pair<A>,
    end: End,
)
    requires { IsReady OBJECTS pool.now worker.old pair.old }
    ensures ready { IsReady OBJECTS pool.now worker.new pair.new }
    ensures spill { (pair.new.spill ≡ []) ⊎ HasStopped pair.new }
{
    match end {
        End::AllGot => {
            get_none(rt, pool, worker, pair);
            assert!(rt; full_is_empty(pool, worker, pair));
        }
        End::InVain(object, spilled) => {
            put_in_vain(rt, pool, worker, pair, object);
            assert!(rt; pair.spilled() == spilled);
        }
    }
}

/// Opens a pair, makes `steps`, ends as `end` says, and disposes of the pair. Returns what the positions of the pair
/// have if a last tag stops the disposal, and `None` otherwise.
fn left_of_pair<R: Wait + Abort, A: Allocator>(
    rt: &R,
    alloc: A,
    pool: &Pool<A>,
    worker: &mut Worker<A>,
    steps: &[Step],
    end: End,
) -> Option<Lens>
    requires { IsWorker OBJECTS pool.now worker.old }
{
    let mut pair = open(rt, alloc, pool, worker);
    go_through(rt, pool, worker, &mut pair, steps);
    finish(rt, pool, worker, &mut pair, end);
    dispose(rt, pool, worker, pair)
}

/// Makes `run` with a pair on a new pool of four buffers. Returns what [`left_of_pair`] returns.
pub(crate) fn left_after<R: Wait + Abort, A: Allocator + Copy>(
    rt: &R,
    alloc: A,
    run: Run,
    size: u32,
    first_tag: u64,
) -> Result<Option<Lens>, PoolFault> {
    let (_, steps, end) = run;
    let (pool, mut worker) = pool_of_roots(alloc, 4, size, first_tag)?;
    Ok(left_of_pair(rt, alloc, &pool, &mut worker, steps, end))
}
