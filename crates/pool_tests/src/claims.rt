//! Claims of the same objects by two threads.
ghost use Rattle.std.specs.Prelude.{◌≡◌};
ghost use Rattle.pool_tests.specs.Rounds.{HasNone, HasRoots};

use crate::edges::pool_of_roots;
use buffer_pool::{Pool, PoolFault, Worker};
use std::alloc::{Allocator, Global};
use std::thread::{Threads, join};

/// Claims objects 0 to `objects` - 1, and returns how many were white.
fn claim_all<A: Allocator>(pool: &Pool<A>, mut worker: Worker<A>, objects: u32) -> u32
    requires pool { worker.pool ≡ pool.now }
    requires roots { HasRoots objects worker }
    requires none { HasNone worker }
{
    let mut white = 0u32;
    for object in 0..objects {
        if pool.claim(&mut worker, object) {
            white = white.saturating_add(1);
        }
    }
    white
}

/// Lets each of two threads claim all `objects` objects, and returns how many claims found a white object.
fn claim_twice<R: Threads>(rt: &R, alloc: Global, objects: u32) -> Result<u32, PoolFault> {
    let (pool, worker) = pool_of_roots(alloc, objects, 4, 2)?;
    let (one, other) = pool.split(worker, 1);
    let shared = &pool;
    let (first, second) = join(
        rt,
        move || -> u32
            requires pool { one.pool ≡ shared.now }
            requires roots { HasRoots objects one }
            requires none { HasNone one }
        { claim_all(shared, one, objects) },
        move || -> u32
            requires pool { other.pool ≡ shared.now }
            requires roots { HasRoots objects other }
            requires none { HasNone other }
        { claim_all(shared, other, objects) },
    );
    Ok(first.saturating_add(second))
}

#[test]
fn each_object_is_claimed_once(rt: HostRuntime) {
    assert_eq!(rt; claim_twice(&rt, rt.alloc(), 1_000), Ok(1_000));
}

/// The marks of 64 objects are in two words, so each claim is in a word in which the other thread claims too.
#[test]
fn each_object_of_two_words_is_claimed_once(rt: HostRuntime) {
    for _ in 0..100 {
        assert_eq!(rt; claim_twice(&rt, rt.alloc(), 64), Ok(64));
    }
}
