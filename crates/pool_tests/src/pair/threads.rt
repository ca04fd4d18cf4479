//! Four threads, each with a pair on one pool of few buffers, put objects, and get objects until none is left.
ghost use Rattle.std.specs.Prelude.{◌≡◌, ◌+◌, ◌*◌, ◌≤◌, [], false};
ghost use Rattle.mark_core.specs.Shares.{whole};
ghost use Rattle.pool_tests.specs.Ready.{IsReady, IsWorker};

use super::hand::{OBJECTS, balance, dispose, get, open, pool_of_roots, publish, put};
use buffer_pool::{Pool, PoolFault, Worker};
use std::alloc::{Allocator, Global};
use std::process::Abort;
use std::sync::Wait;
use std::thread::{Threads, join};
use work_pair::Pair;

/// The number of objects of one thread.
const PART: u32 = 100;

/// A worker with its pair.
#[derive(Drop)]
struct Hand {
    worker: Worker<Global>,
    pair: Pair<Global>,
}

/// A worker, and the objects that it got.
#[derive(Drop)]
struct Taker {
    worker: Worker<Global>,
    got: Vec<u32>,
}

/// Gets an object and appends it to `got`. Returns `false` if there is none.
fn get_one<R: Wait + Abort, A: Allocator>(
    rt: &R,
    pool: &Pool<A>,
    worker: &mut Worker<A>,
    pair: &mut Pair<A>,
    got: &mut Vec<u32>,
) -> bool
    requires { IsReady OBJECTS pool.now worker.old pair.old }
    ensures ready { IsReady OBJECTS pool.now worker.new pair.new }
    ensures none { result ≡ false → pair.new.spill ≡ [] }
{
    let Some(object) = get(rt, pool, worker, pair) else {
        return false;
    };
    let Ok(()) = got.push(object) else {
        panic!(rt; "there is memory");
    };
    true
}

/// Puts `object`. Then, depending on its number, balances, publishes, gets an object, or does nothing.
fn put_one<R: Wait + Abort, A: Allocator>(
    rt: &R,
    pool: &Pool<A>,
    worker: &mut Worker<A>,
    pair: &mut Pair<A>,
    got: &mut Vec<u32>,
    object: u32,
)
    requires { IsReady OBJECTS pool.now worker.old pair.old }
    ensures { IsReady OBJECTS pool.now worker.new pair.new }
{
    put(rt, pool, worker, pair, object);
    match object % 5 {
        0 => balance(rt, pool, worker, pair),
        1 => publish(rt, pool, worker, pair),
        2 => {
            get_one(rt, pool, worker, pair, got);
        }
        _ => {}
    }
}

/// Puts the objects of one thread, from `begin` on. Gets some objects in between.
fn put_part<R: Wait + Abort, A: Allocator>(
    rt: &R,
    pool: &Pool<A>,
    worker: &mut Worker<A>,
    pair: &mut Pair<A>,
    got: &mut Vec<u32>,
    begin: u32,
)
    requires ready { IsReady OBJECTS pool.now worker.old pair.old }
    requires begin { begin + PART ≤ OBJECTS }
    ensures { IsReady OBJECTS pool.now worker.new pair.new }
{
    for object in begin..begin + PART {
        put_one(rt, pool, worker, pair, got, object);
    }
}

/// Gets objects and appends them to `got`, until there is none.
fn get_rest<R: Wait + Abort, A: Allocator>(
    rt: &R,
    pool: &Pool<A>,
    worker: &mut Worker<A>,
    pair: &mut Pair<A>,
    got: &mut Vec<u32>,
)
    requires { IsReady OBJECTS pool.now worker.old pair.old }
    ensures ready { IsReady OBJECTS pool.now worker.new pair.new }
    ensures none_spilled { pair.new.spill ≡ [] }
{
    for _ in rt.forever() {
        if !get_one(rt, pool, worker, pair, got) {
            return;
        }
    }
    unreachable!()
}

/// Puts the objects of one thread, gets objects until there is none, and disposes of the pair.
fn put_and_get<R: Wait + Abort, A: Allocator>(
    rt: &R,
    pool: &Pool<A>,
    worker: &mut Worker<A>,
    mut pair: Pair<A>,
    got: &mut Vec<u32>,
    begin: u32,
)
    requires ready { IsReady OBJECTS pool.now worker.old pair }
    requires begin { begin + PART ≤ OBJECTS }
    ensures { IsWorker OBJECTS pool.now worker.new }
{
    put_part(rt, pool, worker, &mut pair, got, begin);
    get_rest(rt, pool, worker, &mut pair, got);
    let left = dispose(rt, pool, worker, pair);
    assert!(rt; left.is_none());
}

/// Does the work of one thread. Returns the thread's worker with the objects that it got.
fn go_through<R: Wait + Abort>(
    rt: &R,
    alloc: Global,
    pool: &Pool<Global>,
    hand: Hand,
    begin: u32,
) -> Taker
    requires ready { IsReady OBJECTS pool.now hand.worker hand.pair }
    requires begin { begin + PART ≤ OBJECTS }
    ensures { IsWorker OBJECTS pool.now result.worker }
{
    let Hand { mut worker, pair } = hand;
    let mut got = Vec::new(alloc);
    put_and_get(rt, pool, &mut worker, pair, &mut got, begin);
    Taker { worker, got }
}

/// Runs two threads side by side, each with a part of its own. The first part begins at object `begin`.
fn go_side_by_side<R: Threads + Wait + Abort + Sync>(
    rt: &R,
    alloc: Global,
    pool: &Pool<Global>,
    first: Hand,
    second: Hand,
    begin: u32,
) -> Taker
    requires first { IsReady OBJECTS pool.now first.worker first.pair }
    requires second { IsReady OBJECTS pool.now second.worker second.pair }
    requires begin { begin + 2 * PART ≤ OBJECTS }
    ensures { IsWorker OBJECTS pool.now result.worker }
{
    let (front, back) = join(
        rt,
        move || go_through(rt, alloc, pool, first, begin),
        move || go_through(rt, alloc, pool, second, begin + PART),
    );
    both(rt, pool, front, back)
}

/// Joins two workers, and unites the lists of objects that they got.
fn both<R: Abort>(rt: &R, pool: &Pool<Global>, front: Taker, back: Taker) -> Taker
    requires front { IsWorker OBJECTS pool.now front.worker }
    requires back { IsWorker OBJECTS pool.now back.worker }
    ensures { IsWorker OBJECTS pool.now result.worker }
{
    let mut got = front.got;
    let Ok(()) = got.extend_from_slice(back.got.as_slice()) else {
        panic!(rt; "there is memory for all objects");
    };
    let worker = pool.join(front.worker, back.worker);
    Taker { worker, got }
}

/// Opens a new pair for `worker`.
fn hand_of<R: Wait + Abort>(
    rt: &R,
    alloc: Global,
    pool: &Pool<Global>,
    worker: Worker<Global>,
) -> Hand
    requires { IsWorker OBJECTS pool.now worker }
    ensures { IsReady OBJECTS pool.now result.worker result.pair }
{
    let mut worker = worker;
    let pair = open(rt, alloc, pool, &mut worker);
    Hand { worker, pair }
}

/// Runs four threads side by side, each with a part of its own.
fn go_in_four<R: Threads + Wait + Abort + Sync>(
    rt: &R,
    alloc: Global,
    pool: &Pool<Global>,
    front: (Hand, Hand),
    back: (Hand, Hand),
) -> Taker
    requires first { IsReady OBJECTS pool.now front.0.worker front.0.pair }
    requires second { IsReady OBJECTS pool.now front.1.worker front.1.pair }
    requires third { IsReady OBJECTS pool.now back.0.worker back.0.pair }
    requires fourth { IsReady OBJECTS pool.now back.1.worker back.1.pair }
    ensures { IsWorker OBJECTS pool.now result.worker }
{
    let (first, second) = front;
    let (third, fourth) = back;
    let (front, back) = join(
        rt,
        move || -> Taker
            requires first { IsReady OBJECTS pool.now first.worker first.pair }
            requires second { IsReady OBJECTS pool.now second.worker second.pair }
        { go_side_by_side(rt, alloc, pool, first, second, 0) },
        move || -> Taker
            requires third { IsReady OBJECTS pool.now third.worker third.pair }
            requires fourth { IsReady OBJECTS pool.now fourth.worker fourth.pair }
        { go_side_by_side(rt, alloc, pool, third, fourth, 2 * PART) },
    );
    both(rt, pool, front, back)
}

/// Splits `worker` in four, and runs these workers with a pair each. Returns the four workers, joined, with all objects
/// that they got.
fn got_by_four<R: Threads + Wait + Abort + Sync>(
    rt: &R,
    alloc: Global,
    pool: &Pool<Global>,
    worker: Worker<Global>,
) -> Taker
    requires worker { IsWorker OBJECTS pool.now worker }
    requires share { worker.book.account.share ≡ whole }
    ensures { IsWorker OBJECTS pool.now result.worker }
{
    let (first, worker) = pool.split(worker, 30_000);
    let (second, worker) = pool.split(worker, 20_000);
    let (third, fourth) = pool.split(worker, 10_000);
    let first = hand_of(rt, alloc, pool, first);
    let second = hand_of(rt, alloc, pool, second);
    let third = hand_of(rt, alloc, pool, third);
    let fourth = hand_of(rt, alloc, pool, fourth);
    go_in_four(rt, alloc, pool, (first, second), (third, fourth))
}

/// Tests whether `got` has each object once, in order.
fn are_all(got: &[u32]) -> bool {
    for (place, object) in got.iter().enumerate() {
        if *object as usize != place {
            return false;
        }
    }
    got.len() == OBJECTS as usize
}

/// Gets the remaining objects with a new pair, and tests whether each object was got once in all.
fn all_got<R: Wait + Abort>(rt: &R, alloc: Global, pool: &Pool<Global>, taker: Taker) -> bool
    requires { IsWorker OBJECTS pool.now taker.worker }
{
    let Taker { worker, mut got } = taker;
    let Hand {
        mut worker,
        mut pair,
    } = hand_of(rt, alloc, pool, worker);
    get_rest(rt, pool, &mut worker, &mut pair, &mut got);
    got.sort_unstable();
    are_all(got.as_slice())
}

/// Tests whether four threads got each object once.
fn got_by_threads<R: Threads + Wait + Abort + Sync>(
    rt: &R,
    alloc: Global,
) -> Result<bool, PoolFault> {
    let (pool, worker) = pool_of_roots(alloc, 12, 4, 0)?;
    let taker = got_by_four(rt, alloc, &pool, worker);
    Ok(all_got(rt, alloc, &pool, taker))
}

/// No object is lost, and none is got twice.
#[test]
fn four_threads(rt: HostRuntime) {
    assert_eq!(rt; got_by_threads(&rt, rt.alloc()), Ok(true));
}
