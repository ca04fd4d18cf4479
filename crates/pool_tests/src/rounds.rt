//! Four threads that fill buffers, push them, pop them and finish the objects in them, all at the same time.
ghost use Rattle.std.specs.Prelude.{◌≡◌, ◌≤◌, ◌+◌, ◌*◌, [], IfOk, MatchOption, length};
ghost use Rattle.mark_core.specs.Shares.{whole};
ghost use Rattle.mark_core.specs.declared.which.Which.TheVariants.{Empty};
ghost use Rattle.pool_tests.specs.Rounds.{HasNone, HasOne, HasRoots, IsSameWorker};

use crate::edges::pool_of_roots;
use buffer_pool::{Held, Marks, Pool, PoolFault, TryPopped, TryPushed, Which, Worker};
use std::alloc::{Allocator, Global};
use std::process::Abort;
use std::test::Fail;
use std::thread::{Threads, join};

pub(crate) const OBJECTS: u32 = 4_000;

const BUFFERS: u32 = 64;

/// The number of objects of one thread.
const PART: u32 = 1_000;

/// The most objects of one round: as many as a buffer takes.
const ROUND: u32 = 16;

/// The most tries of one pop or push. A try is lost only if another thread's pop or push succeeds between the try's
/// load and its exchange. All threads together make about a thousand successful pops and pushes.
const TURNS: u32 = 10_000;

fn pop_within<R: Abort, A: Allocator>(
    rt: &R,
    pool: &Pool<A>,
    worker: &mut Worker<A>,
    which: Which,
) -> Option<Held<A>>
    requires pool { worker.old.pool ≡ pool.now }
    requires none { HasNone worker.old }
    ensures same { IsSameWorker worker.old worker.new }
    ensures held { MatchOption result (HasNone worker.new) (HasOne worker.new) }
{
    for _ in 0..TURNS {
        match pool.try_pop(worker, which) {
            TryPopped::Took(held) => return Some(held),
            TryPopped::Empty => return None,
            TryPopped::Lost => {}
            TryPopped::Spent => panic!(rt; "no tag is near the last one"),
        }
    }
    panic!(rt; "each pop was lost")
}

fn push_within<R: Abort, A: Allocator>(
    rt: &R,
    pool: &Pool<A>,
    worker: &mut Worker<A>,
    which: Which,
    held: Held<A>,
)
    requires pool { worker.old.pool ≡ pool.now }
    requires one { HasOne worker.old held }
    requires bare { which ≡ Empty → held.items ≡ [] }
    ensures same { IsSameWorker worker.old worker.new }
    ensures none { HasNone worker.new }
{
    let mut held = held;
    for _ in 0..TURNS {
        match pool.try_push(worker, which, held) {
            TryPushed::Done => return,
            TryPushed::Lost(back) => held = back,
            TryPushed::Spent(_) => panic!(rt; "no tag is near the last one"),
        }
    }
    panic!(rt; "each push was lost")
}

/// Claims objects `from` to `to` - 1, and puts those that were white into `held`.
fn fill<R: Abort, A: Allocator>(
    rt: &R,
    pool: &Pool<A>,
    worker: &mut Worker<A>,
    held: &mut Held<A>,
    from: u32,
    to: u32,
)
    requires pool { worker.old.pool ≡ pool.now }
    requires roots { HasRoots OBJECTS worker.old }
    requires to { to ≤ OBJECTS }
    requires one { HasOne worker.old held.old }
    ensures same { IsSameWorker worker.old worker.new }
    ensures one { HasOne worker.new held.new }
{
    for object in from..to {
        if pool.claim(worker, object) {
            let Ok(()) = held.put(object) else {
                panic!(rt; "a round is no more than a buffer takes");
            };
        }
    }
}

fn finish_items<A: Allocator>(pool: &Pool<A>, worker: &mut Worker<A>, held: &mut Held<A>)
    requires pool { worker.old.pool ≡ pool.now }
    requires roots { HasRoots OBJECTS worker.old }
    requires one { HasOne worker.old held.old }
    ensures same { IsSameWorker worker.old worker.new }
    ensures one { HasOne worker.new held.new }
    ensures bare { held.new.items ≡ [] }
{
    while let Some(object) = held.take() {
        pool.finish(worker, object);
    }
}

/// Pops a buffer from the full stack, finishes its objects, and pushes the buffer on the empty stack. Returns `false`
/// if the full stack has no buffer.
pub(crate) fn finish_buffer<R: Abort, A: Allocator>(
    rt: &R,
    pool: &Pool<A>,
    worker: &mut Worker<A>,
) -> bool
    requires pool { worker.old.pool ≡ pool.now }
    requires roots { HasRoots OBJECTS worker.old }
    requires none { HasNone worker.old }
    ensures same { IsSameWorker worker.old worker.new }
    ensures none { HasNone worker.new }
{
    let Some(mut held) = pop_within(rt, pool, worker, Which::Full) else {
        return false;
    };
    finish_items(pool, worker, &mut held);
    push_within(rt, pool, worker, Which::Empty, held);
    true
}

/// Claims objects `from` to `to` - 1, puts those that were white into a buffer, and pushes the buffer on the full
/// stack.
pub(crate) fn fill_buffer<R: Abort, A: Allocator>(
    rt: &R,
    pool: &Pool<A>,
    worker: &mut Worker<A>,
    from: u32,
    to: u32,
)
    requires pool { worker.old.pool ≡ pool.now }
    requires roots { HasRoots OBJECTS worker.old }
    requires to { to ≤ OBJECTS }
    requires none { HasNone worker.old }
    ensures same { IsSameWorker worker.old worker.new }
    ensures none { HasNone worker.new }
{
    let Some(mut held) = pop_within(rt, pool, worker, Which::Empty) else {
        panic!(rt; "there are more buffers than threads");
    };
    fill(rt, pool, worker, &mut held, from, to);
    push_within(rt, pool, worker, Which::Full, held);
}

/// Does the work of one thread, in rounds: each fills a buffer with objects of the thread's part, which begins at
/// object `begin`, and then finishes a buffer.
fn go_through<R: Abort, A: Allocator>(
    rt: &R,
    pool: &Pool<A>,
    worker: Worker<A>,
    begin: u32,
) -> Worker<A>
    requires pool { worker.pool ≡ pool.now }
    requires roots { HasRoots OBJECTS worker }
    requires begin { begin + PART ≤ OBJECTS }
    requires none { HasNone worker }
    ensures same { IsSameWorker worker result }
    ensures none { HasNone result }
{
    let mut worker = worker;
    let end = begin + PART;
    for round in 0..PART.div_ceil(ROUND) {
        let from = begin + round * ROUND;
        fill_buffer(rt, pool, &mut worker, from, end.min(from + ROUND));
        finish_buffer(rt, pool, &mut worker);
    }
    worker
}

/// Runs two threads side by side, each with a part of its own. The first part begins at object `begin`. Returns the two
/// workers, joined.
fn go_side_by_side<R: Threads + Abort + Sync>(
    rt: &R,
    pool: &Pool<Global>,
    first: Worker<Global>,
    second: Worker<Global>,
    begin: u32,
) -> Worker<Global>
    requires pool { (first.pool ≡ pool.now) × (second.pool ≡ pool.now) }
    requires roots { HasRoots OBJECTS first × HasRoots OBJECTS second }
    requires begin { begin + 2 * PART ≤ OBJECTS }
    requires none { HasNone first × HasNone second }
    ensures pool { result.pool ≡ first.pool }
    ensures setup { result.book.setup ≡ first.book.setup }
    ensures share { result.book.account.share ≡ first.book.account.share + second.book.account.share }
    ensures none { HasNone result }
{
    let (first, second) = join(
        rt,
        move || go_through(rt, pool, first, begin),
        move || go_through(rt, pool, second, begin + PART),
    );
    pool.join(first, second)
}

/// Finishes the objects of the buffers that remain on the full stack.
fn finish_rest<R: Abort, A: Allocator>(rt: &R, pool: &Pool<A>, worker: Worker<A>) -> Worker<A>
    requires pool { worker.pool ≡ pool.now }
    requires roots { HasRoots OBJECTS worker }
    requires none { HasNone worker }
    ensures same { IsSameWorker worker result }
    ensures none { HasNone result }
{
    let mut worker = worker;
    for _ in 0..BUFFERS {
        finish_buffer(rt, pool, &mut worker);
    }
    worker
}

/// Splits `worker` in four, and runs these workers, each with a part of its own. Then finishes the objects that remain.
/// Returns the four workers, joined.
fn finish_all<R: Threads + Abort + Sync>(
    rt: &R,
    pool: &Pool<Global>,
    worker: Worker<Global>,
) -> Worker<Global>
    requires pool { worker.pool ≡ pool.now }
    requires roots { HasRoots OBJECTS worker }
    requires none { HasNone worker }
    requires share { worker.book.account.share ≡ whole }
    ensures pool { result.pool ≡ worker.pool }
    ensures setup { result.book.setup ≡ worker.book.setup }
    ensures share { result.book.account.share ≡ whole }
    ensures none { HasNone result }
{
    let (first, worker) = pool.split(worker, 30_000);
    let (second, worker) = pool.split(worker, 20_000);
    let (third, fourth) = pool.split(worker, 10_000);
    let (front, back) = join(
        rt,
        move || -> Worker<Global>
            requires pool { (first.pool ≡ pool.now) × (second.pool ≡ pool.now) }
            requires roots { HasRoots OBJECTS first × HasRoots OBJECTS second }
            requires none { HasNone first × HasNone second }
        { go_side_by_side(rt, pool, first, second, 0) },
        move || -> Worker<Global>
            requires pool { (third.pool ≡ pool.now) × (fourth.pool ≡ pool.now) }
            requires roots { HasRoots OBJECTS third × HasRoots OBJECTS fourth }
            requires none { HasNone third × HasNone fourth }
        { go_side_by_side(rt, pool, third, fourth, 2 * PART) },
    );
    finish_rest(rt, pool, pool.join(front, back))
}

/// Returns the marks of a new pool after [`finish_all`].
fn marks_of_all<R: Threads + Abort + Sync>(
    rt: &R,
    alloc: Global,
) -> Result<Marks<Global>, PoolFault>
    ensures { IfOk result (λ m. length m ≡ OBJECTS) }
{
    let (pool, worker) = pool_of_roots(alloc, OBJECTS, BUFFERS, ROUND)?;
    let worker = finish_all(rt, &pool, worker);
    Ok(pool.close(worker))
}

/// Tests that all objects are finished.
fn check_all_finished<R: Abort>(rt: &R, marks: &Marks<Global>)
    requires { length marks.now ≡ OBJECTS }
{
    for object in 0..OBJECTS {
        assert!(rt; marks.is_finished(object), "object {object}");
    }
    assert_eq!(rt; marks.finished_len(), u64::from(OBJECTS));
    assert_eq!(rt; marks.next_unfinished(0), None);
}

#[test]
fn four_threads(rt: HostRuntime) -> Result<(), Fail> {
    let marks = marks_of_all(&rt, rt.alloc())?;
    check_all_finished(&rt, &marks);
    Ok(())
}
