//! Two workers that go idle.
ghost use Rattle.std.specs.Prelude.{◌≡◌};
ghost use Rattle.pool_tests.specs.Worked.{IsOfOneUnit};

use crate::edges::pool_of_roots;
use crate::memory::heap_of_a_pool;
use buffer_pool::{Pool, PoolFault, Which, Worker};
use std::alloc::Allocator;

/// Lets `one` and then `other` go idle, and then `one` come back. Returns four results: `all_idle` of 2 after `one`
/// went idle; of 2 and of 1 after both did; and of 2 after `one` came back. Returns `None` if a worker did not see the
/// full stack empty.
fn idle_in_turn<A: Allocator>(
    pool: &Pool<A>,
    one: &mut Worker<A>,
    other: &mut Worker<A>,
) -> Option<[bool; 4]>
    requires pool { (one.old.pool ≡ pool.now) × (other.old.pool ≡ pool.now) }
    requires new { IsOfOneUnit one.old × IsOfOneUnit other.old }
{
    if !pool.sees_empty(one, Which::Full) || !pool.sees_empty(other, Which::Full) {
        return None;
    }
    pool.idle_up(one);
    let two_with_one_idle = pool.all_idle(other, 2);
    pool.idle_up(other);
    let two = pool.all_idle(one, 2);
    let one_alone = pool.all_idle(one, 1);
    pool.idle_down(one);
    Some([two_with_one_idle, two, one_alone, pool.all_idle(other, 2)])
}

/// Calls [`idle_in_turn`] with two workers of one unit each, in a new pool.
fn two_idle_workers<A: Allocator + Copy>(alloc: A) -> Result<Option<[bool; 4]>, PoolFault> {
    let (pool, leader) = pool_of_roots(alloc, 1, 4, 2)?;
    let (leader, mut one) = pool.split(leader, 1);
    let (_leader, mut other) = pool.split(leader, 1);
    Ok(idle_in_turn(&pool, &mut one, &mut other))
}

#[test]
fn all_are_idle_until_one_comes_back(rt: HostRuntime) {
    let heap = heap_of_a_pool(rt.alloc());
    let idle = two_idle_workers(&heap);
    let wanted = Ok(Some([false, true, false, false]));
    assert_eq!(rt; (idle, heap.refusals()), (wanted, 0));
}
