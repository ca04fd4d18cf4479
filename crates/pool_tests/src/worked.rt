//! Small runs of one thread, with their results.
ghost use Rattle.std.specs.Prelude.{◌≡◌, ◌≤◌, ◌<◌, [], length};
ghost use Rattle.pool_tests.specs.Rounds.{HasNone, HasRoots, IsSameWorker};

use crate::edges::{Roots, pool_of_roots};
use crate::memory::heap_of_a_pool;
use crate::rounds::{OBJECTS, fill_buffer, finish_buffer};
use buffer_pool::{Held, Marks, Pool, PoolFault, TryPopped, Which, Worker};
use std::alloc::{Allocator, Global};
use std::process::Abort;

/// Tests whether `object` was claimed, and whether it was finished.
pub(crate) fn mark<A: Allocator>(marks: &Marks<A>, object: u32) -> (bool, bool)
    requires { object < length marks.now }
{
    (marks.is_claimed(object), marks.is_finished(object))
}

/// The marks of objects 0 to 4, and the number of finished objects.
type Told = ([(bool, bool); 5], u64);

fn told<A: Allocator>(marks: &Marks<A>) -> Told
    requires { length marks.now ≡ OBJECTS }
{
    let first = [
        mark(marks, 0),
        mark(marks, 1),
        mark(marks, 2),
        mark(marks, 3),
        mark(marks, 4),
    ];
    (first, marks.finished_len())
}

/// Returns the marks after a run in which objects 0 and 1 are finished, 2 and 3 are on the full stack, and 4 is white.
/// Returns also the first unfinished object of all, and the first from object 3 on.
fn marks_of_each_kind<R: Abort>(
    rt: &R,
    alloc: Global,
) -> Result<(Told, [Option<u32>; 2]), PoolFault> {
    let (pool, worker) = pool_of_roots(alloc, OBJECTS, 4, 2)?;
    let (mut worker, mut other) = pool.split(worker, 1);
    fill_buffer(rt, &pool, &mut worker, 0, 2);
    finish_buffer(rt, &pool, &mut other);
    fill_buffer(rt, &pool, &mut worker, 2, 4);
    let worker = pool.join(worker, other);
    let marks = pool.close(worker);
    let next = [marks.next_unfinished(0), marks.next_unfinished(3)];
    Ok((told(&marks), next))
}

/// The one of two workers that takes a turn.
#[derive(Clone, Copy, Drop)]
enum Who {
    One,
    Other,
}

/// A turn. `Fill(from, to)` claims objects `from` to `to` - 1, puts those that were white into a buffer, and pushes the
/// buffer on the full stack. `Finish` finishes the objects of a buffer of the full stack; its flag says whether the
/// stack has a buffer.
#[derive(Clone, Copy, Drop)]
enum Does {
    Fill(u32, u32),
    Finish(bool),
}

fn take_turn<R: Abort, A: Allocator>(rt: &R, pool: &Pool<A>, worker: &mut Worker<A>, what: Does)
    requires pool { worker.old.pool ≡ pool.now }
    requires roots { HasRoots OBJECTS worker.old }
    requires none { HasNone worker.old }
    ensures same { IsSameWorker worker.old worker.new }
    ensures none { HasNone worker.new }
{
    match what {
        Does::Fill(from, to) => fill_buffer(rt, pool, worker, from, to.min(OBJECTS)),
        Does::Finish(some) => {
            let found = finish_buffer(rt, pool, worker);
            assert_eq!(rt; found, some);
        }
    }
}

/// Lets `one` and `other` take `turns`, in order.
fn go_in_turn<R: Abort, A: Allocator>(
    rt: &R,
    pool: &Pool<A>,
    one: &mut Worker<A>,
    other: &mut Worker<A>,
    turns: &[(Who, Does)],
)
    requires pool { (one.old.pool ≡ pool.now) × (other.old.pool ≡ pool.now) }
    requires roots { HasRoots OBJECTS one.old × HasRoots OBJECTS other.old }
    requires none { HasNone one.old × HasNone other.old }
    ensures same { IsSameWorker one.old one.new × IsSameWorker other.old other.new }
    ensures none { HasNone one.new × HasNone other.new }
{
    for (who, what) in turns {
        match who {
            Who::One => take_turn(rt, pool, one, *what),
            Who::Other => take_turn(rt, pool, other, *what),
        }
    }
}

/// Returns the marks of a new pool after two workers have taken `turns`.
fn told_after<R: Abort, A: Allocator + Copy>(
    rt: &R,
    alloc: A,
    turns: &[(Who, Does)],
) -> Result<Told, PoolFault> {
    let (pool, worker) = pool_of_roots(alloc, OBJECTS, 4, 2)?;
    let (mut one, mut other) = pool.split(worker, 1);
    go_in_turn(rt, &pool, &mut one, &mut other, turns);
    let worker = pool.join(one, other);
    let marks = pool.close(worker);
    Ok(told(&marks))
}

/// Calls [`told_after`] on a heap that grants only the requests of the opening of the pool. Returns also how many
/// requests are left, and how many were refused.
fn told_without_memory<R: Abort>(
    rt: &R,
    alloc: Global,
    turns: &[(Who, Does)],
) -> Result<(Told, u64, u64), PoolFault> {
    let heap = heap_of_a_pool(alloc);
    let told = told_after(rt, &heap, turns)?;
    Ok((told, heap.requests_left(), heap.refusals()))
}

const WHITE: (bool, bool) = (false, false);

const CLAIMED: (bool, bool) = (true, false);

const FINISHED: (bool, bool) = (true, true);

/// The turns of two workers, and then the marks of objects 0 to 4 and the number of finished objects.
type Run = (&'static [(Who, Does)], Told);

/// Nothing is claimed.
const NO_TURNS: Run = (&[], ([WHITE, WHITE, WHITE, WHITE, WHITE], 0));

/// One worker finishes objects 0 and 1, the other finishes object 2, and object 3 is only claimed.
const ONE_CLAIMED: Run = (
    &[
        (Who::One, Does::Fill(0, 2)),
        (Who::One, Does::Finish(true)),
        (Who::One, Does::Fill(2, 3)),
        (Who::Other, Does::Finish(true)),
        (Who::Other, Does::Fill(3, 4)),
    ],
    ([FINISHED, FINISHED, FINISHED, CLAIMED, WHITE], 3),
);

/// Both workers claim object 1, each finishes a buffer, and then the full stack is empty.
const CLAIMED_TWICE: Run = (
    &[
        (Who::One, Does::Fill(0, 2)),
        (Who::Other, Does::Fill(1, 3)),
        (Who::One, Does::Finish(true)),
        (Who::Other, Does::Finish(true)),
        (Who::Other, Does::Finish(false)),
    ],
    ([FINISHED, FINISHED, FINISHED, WHITE, WHITE], 3),
);

#[test]
fn marks_of_one_run(rt: HostRuntime) {
    let told = ([FINISHED, FINISHED, CLAIMED, CLAIMED, WHITE], 2);
    let next = [Some(2), Some(3)];
    assert_eq!(rt; marks_of_each_kind(&rt, rt.alloc()), Ok((told, next)));
}

/// Tests the marks after `run`, that no requests are left, and that none was refused.
fn check_run<R: Abort>(rt: &R, alloc: Global, run: Run) {
    let (turns, told) = run;
    let outcome = told_without_memory(rt, alloc, turns);
    assert_eq!(rt; outcome, Ok((told, 0, 0)));
}

/// The calls on an open pool make no allocation: they run on a heap that refuses every further request, and it refuses
/// none. Such a heap also serves the tests of idle workers, of the last tags, of buffers' items, and of pops and pushes
/// that try again.
#[test]
fn the_pool_takes_no_memory(rt: HostRuntime) {
    check_run(&rt, rt.alloc(), NO_TURNS);
    check_run(&rt, rt.alloc(), ONE_CLAIMED);
    check_run(&rt, rt.alloc(), CLAIMED_TWICE);
}

/// Puts `objects` into `held` until one is refused. Returns the refused object, or `None` if the buffer took all.
fn put_until_full<A: Allocator>(held: &mut Held<A>, objects: &[u32]) -> Option<u32>
    ensures { held.new.size ≡ held.old.size }
{
    for object in objects {
        if let Err(back) = held.put(*object) {
            return Some(back);
        }
    }
    None
}

/// The results of three calls of `take`, and the number of objects left.
type Taken = ([Option<u32>; 3], u32);

fn take_three<A: Allocator>(held: &mut Held<A>) -> Taken {
    let taken = [held.take(), held.take(), held.take()];
    (taken, held.len())
}

/// The object that the first buffer refused, how many objects each of two buffers had then, and what was taken from
/// each buffer after the upper half of the first was moved into the second.
type Items = (Option<u32>, (u32, u32), Taken, Taken);

/// Puts objects 10 to 15 into a buffer of a new pool until one is refused, moves the upper half into another buffer,
/// and takes three objects from each. Returns `None` if a pop finds no buffer.
fn items_of_two<A: Allocator>(pool: &Pool<A>, worker: &mut Worker<A>) -> Option<Items>
    requires pool { worker.old.pool ≡ pool.now }
    requires awake { worker.old.book.account.idle ≡ 0 }
{
    let TryPopped::Took(mut lower) = pool.try_pop(worker, Which::Empty) else {
        return None;
    };
    let TryPopped::Took(mut upper) = pool.try_pop(worker, Which::Empty) else {
        return None;
    };
    let back = put_until_full(&mut lower, &[10, 11, 12, 13, 14, 15]);
    let lens = (lower.len(), upper.len());
    lower.split_upper_into(&mut upper);
    Some((back, lens, take_three(&mut lower), take_three(&mut upper)))
}

fn items_of_a_pool<A: Allocator + Copy>(alloc: A) -> Result<Option<Items>, PoolFault> {
    let (pool, mut worker) = Pool::new(alloc, &Roots { objects: 0 }, 4, 5, 0)?;
    Ok(items_of_two(&pool, &mut worker))
}

/// Five objects fit into a buffer, and a sixth is refused. Two are moved to another buffer, and all are taken, from
/// each buffer the last object first.
#[test]
fn items_of_buffers(rt: HostRuntime) {
    let heap = heap_of_a_pool(rt.alloc());
    let lower = ([Some(12), Some(11), Some(10)], 0);
    let upper = ([Some(14), Some(13), None], 0);
    let items = items_of_a_pool(&heap);
    let wanted = Ok(Some((Some(15), (5, 0), lower, upper)));
    assert_eq!(rt; (items, heap.refusals()), (wanted, 0));
}
