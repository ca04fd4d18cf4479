//! Stacks whose heads have the last tag.
ghost use Rattle.std.specs.Prelude.{◌≡◌, []};
ghost use Rattle.pool_tests.specs.Worked.{Holds};

use crate::memory::heap_of_a_pool;
use crate::waiting::bare_pool;
use buffer_pool::{Pool, PoolFault, TryPopped, TryPushed, Which, Worker};
use std::alloc::Allocator;
use tagged_index::LAST_TAG;

/// Returns whether a pop finds that the full stack has no buffer, whether `sees_empty` finds the same, and whether a
/// pop from the empty stack finds the last tag.
fn look_at_both<A: Allocator>(pool: &Pool<A>, worker: &mut Worker<A>) -> [bool; 3]
    requires pool { worker.old.pool ≡ pool.now }
    requires none { Holds 2 [] worker.old }
{
    let popped = matches!(pool.try_pop(worker, Which::Full), TryPopped::Empty);
    let seen = pool.sees_empty(worker, Which::Full);
    let spent = matches!(pool.try_pop(worker, Which::Empty), TryPopped::Spent);
    [popped, seen, spent]
}

/// Pops a buffer from the empty stack, and tries to push it back; the push finds the last tag. Returns how many items
/// the buffer has before and after that push, and whether a further pop finds the last tag too. Returns `None` if the
/// first pop takes no buffer, or if the push does not find the last tag.
fn pop_and_push<A: Allocator>(pool: &Pool<A>, worker: &mut Worker<A>) -> Option<(u32, u32, bool)>
    requires pool { worker.old.pool ≡ pool.now }
    requires none { Holds 2 [] worker.old }
{
    let TryPopped::Took(held) = pool.try_pop(worker, Which::Empty) else {
        return None;
    };
    let before = held.len();
    let TryPushed::Spent(back) = pool.try_push(worker, Which::Empty, held) else {
        return None;
    };
    let spent = matches!(pool.try_pop(worker, Which::Empty), TryPopped::Spent);
    Some((before, back.len(), spent))
}

fn at_the_last<A: Allocator + Copy>(alloc: A) -> Result<[bool; 3], PoolFault> {
    let (pool, mut worker) = bare_pool(alloc, LAST_TAG)?;
    Ok(look_at_both(&pool, &mut worker))
}

fn before_the_last<A: Allocator + Copy>(alloc: A) -> Result<Option<(u32, u32, bool)>, PoolFault> {
    let (pool, mut worker) = bare_pool(alloc, LAST_TAG - 1)?;
    Ok(pop_and_push(&pool, &mut worker))
}

/// A pop from a stack without buffers returns `Empty` also at the last tag.
#[test]
fn at_the_last_tag(rt: HostRuntime) {
    let heap = heap_of_a_pool(rt.alloc());
    let seen = at_the_last(&heap);
    assert_eq!(rt; (seen, heap.refusals()), (Ok([true, true, true]), 0));
}

/// The head can be exchanged once more. A pop does it, and then the push of the popped buffer returns `Spent`.
#[test]
fn before_the_last_tag(rt: HostRuntime) {
    let heap = heap_of_a_pool(rt.alloc());
    let spent = before_the_last(&heap);
    assert_eq!(rt; (spent, heap.refusals()), (Ok(Some((0, 0, true))), 0));
}
