//! Pops and pushes that try again until a try is not lost, and the stacks before and after them.
ghost use Rattle.std.specs.Prelude.{◌≡◌, ℕ, ◌<◌, List, [], ◌∷◌, ◌++◌, Contains, IfOk, length};
ghost use Rattle.mark_core.specs.Lists.{remove_one};
ghost use Rattle.mark_core.specs.Shares.{whole};
ghost use Rattle.pool_tests.specs.Worked.{Holds, bare};

use crate::edges::Roots;
use crate::memory::heap_of_a_pool;
use buffer_pool::layout::{FIRST_LINK, head_word};
use buffer_pool::{Held, Pool, PoolFault, Popped, Which, Worker};
use std::alloc::{Allocator, Global};
use std::process::Abort;
use std::sync::Wait;
use tagged_index::HeadWord;

pub(crate) const BUFFERS: u32 = 4;

/// Creates a pool without objects, of four buffers for two objects each.
pub(crate) fn bare_pool<A: Allocator + Copy>(
    alloc: A,
    first_tag: u64,
) -> Result<(Pool<A>, Worker<A>), PoolFault>
    ensures pool { IfOk result (λ p. p.1.pool ≡ p.0) }
    ensures none { IfOk result (λ p. Holds 2 [] p.1) }
    ensures share { IfOk result (λ p. p.1.book.account.share ≡ whole) }
{
    Pool::new(alloc, &Roots { objects: 0 }, BUFFERS, 2, first_tag)
}

/// Returns word `number` of the table as it is now.
fn word<R: Abort, A: Allocator>(rt: &R, pool: &Pool<A>, number: usize) -> u64 {
    let Some(word) = pool.peek(number) else {
        panic!(rt; "the table has each of these words");
    };
    word
}

/// Returns the index and the tag of the head of the stack `which`, as they are in the table now.
pub(crate) fn head<R: Abort, A: Allocator>(
    rt: &R,
    pool: &Pool<A>,
    which: Which,
) -> (Option<u32>, u64) {
    let head = HeadWord::from_word(word(rt, pool, head_word(which)));
    (head.index(), head.tag())
}

/// Returns the link word of `buffer` as it is in the table now.
fn link<R: Abort, A: Allocator>(rt: &R, pool: &Pool<A>, buffer: usize) -> u64
    requires { buffer < 4 }
{
    word(rt, pool, FIRST_LINK + buffer)
}

fn links<R: Abort, A: Allocator>(rt: &R, pool: &Pool<A>) -> [u64; 4] {
    [
        link(rt, pool, 0),
        link(rt, pool, 1),
        link(rt, pool, 2),
        link(rt, pool, 3),
    ]
}

/// Tests that `held` is buffer `wanted` and has no items.
fn check_bare<R: Abort, A: Allocator>(rt: &R, held: &Held<A>, wanted: u32)
    ensures index { held.now.index ≡ wanted }
    ensures none { length held.now.items ≡ 0 }
{
    assert_eq!(rt; held.index(), wanted);
    assert_eq!(rt; held.len(), 0);
}

/// Pops a buffer, and tests that it is buffer `wanted` and has no items.
fn pop_bare<R: Wait + Abort, A: Allocator>(
    rt: &R,
    pool: &Pool<A>,
    worker: &mut Worker<A>,
    which: Which,
    wanted: u32,
) -> Held<A>
    requires pool { worker.old.pool ≡ pool.now }
    requires awake { worker.old.book.account.idle ≡ 0 }
    ensures pool { worker.new.pool ≡ worker.old.pool }
    ensures held { (n : ℕ) (list : List ℕ) → Holds n list worker.old
        → Holds n (list ++ wanted ∷ []) worker.new × (result ≡ bare n wanted) }
{
    let Popped::Took(held) = pool.pop(rt, worker, which) else {
        panic!(rt; "there is a buffer, and a tag");
    };
    check_bare(rt, &held, wanted);
    held
}

/// Pushes `held`, which has no items.
pub(crate) fn push_bare<R: Wait + Abort, A: Allocator>(
    rt: &R,
    pool: &Pool<A>,
    worker: &mut Worker<A>,
    which: Which,
    held: Held<A>,
)
    requires pool { worker.old.pool ≡ pool.now }
    requires held { (n : ℕ) × (list : List ℕ) × Holds n list worker.old
        × Contains list held.index × (held ≡ bare n held.index) }
    ensures pool { worker.new.pool ≡ worker.old.pool }
    ensures held { (n : ℕ) (list : List ℕ) → Holds n list worker.old → Holds n (remove_one held.index list) worker.new }
{
    let Ok(()) = pool.push(rt, worker, which, held) else {
        panic!(rt; "no tag is near the last one");
    };
}

/// Tests that the full stack is seen empty if `wanted` is true, and that it is not if `wanted` is false.
fn check_full_is_empty<R: Abort, A: Allocator>(
    rt: &R,
    pool: &Pool<A>,
    worker: &mut Worker<A>,
    wanted: bool,
)
    requires pool { worker.old.pool ≡ pool.now }
    ensures pool { worker.new.pool ≡ worker.old.pool }
    ensures held { (n : ℕ) (list : List ℕ) → Holds n list worker.old → Holds n list worker.new }
{
    assert_eq!(rt; pool.sees_empty(worker, Which::Full), wanted);
}

/// Pops buffers 0, 1 and 2 from the empty stack, and returns buffers 1 and 2. Buffer 0 is dropped.
fn pop_three<R: Wait + Abort, A: Allocator>(
    rt: &R,
    pool: &Pool<A>,
    worker: &mut Worker<A>,
) -> (Held<A>, Held<A>)
    requires pool { worker.old.pool ≡ pool.now }
    requires none { Holds 2 [] worker.old }
    ensures pool { worker.new.pool ≡ worker.old.pool }
    ensures held { Holds 2 (0 ∷ 1 ∷ 2 ∷ []) worker.new }
    ensures two { (result.0 ≡ bare 2 1) × (result.1 ≡ bare 2 2) }
{
    pop_bare(rt, pool, worker, Which::Empty, 0);
    let second = pop_bare(rt, pool, worker, Which::Empty, 1);
    let third = pop_bare(rt, pool, worker, Which::Empty, 2);
    (second, third)
}

/// Pushes buffer 2 and then buffer 1 on the full stack. Tests that the stack is seen empty before the first push, and
/// not after it.
fn push_two<R: Wait + Abort, A: Allocator>(
    rt: &R,
    pool: &Pool<A>,
    worker: &mut Worker<A>,
    second: Held<A>,
    third: Held<A>,
)
    requires pool { worker.old.pool ≡ pool.now }
    requires held { Holds 2 (0 ∷ 1 ∷ 2 ∷ []) worker.old }
    requires two { (second ≡ bare 2 1) × (third ≡ bare 2 2) }
    ensures pool { worker.new.pool ≡ worker.old.pool }
{
    check_full_is_empty(rt, pool, worker, true);
    push_bare(rt, pool, worker, Which::Full, third);
    check_full_is_empty(rt, pool, worker, false);
    push_bare(rt, pool, worker, Which::Full, second);
}

/// Pops buffers 1 and 2 from the full stack, and pushes buffer 1 back. Tests that the stack is seen empty between the
/// second pop and the push, and not before or after.
fn pop_two_push_one<R: Wait + Abort, A: Allocator>(rt: &R, pool: &Pool<A>, worker: &mut Worker<A>)
    requires pool { worker.old.pool ≡ pool.now }
    requires none { Holds 2 [] worker.old }
{
    let first = pop_bare(rt, pool, worker, Which::Full, 1);
    check_full_is_empty(rt, pool, worker, false);
    pop_bare(rt, pool, worker, Which::Full, 2);
    check_full_is_empty(rt, pool, worker, true);
    push_bare(rt, pool, worker, Which::Full, first);
    check_full_is_empty(rt, pool, worker, false);
}

/// The heads of the full stack and of the empty one, each as its index and tag, and the four link words.
type Stacks = ((Option<u32>, u64), (Option<u32>, u64), [u64; 4]);

fn stacks<R: Abort, A: Allocator>(rt: &R, pool: &Pool<A>) -> Stacks {
    (
        head(rt, pool, Which::Full),
        head(rt, pool, Which::Empty),
        links(rt, pool),
    )
}

/// Returns the stacks of a new pool, and whether the full one and the empty one are seen empty.
fn opened<R: Abort>(
    rt: &R,
    alloc: Global,
    first_tag: u64,
) -> Result<(Stacks, bool, bool), PoolFault> {
    let (pool, mut worker) = bare_pool(alloc, first_tag)?;
    let full = pool.sees_empty(&mut worker, Which::Full);
    let empty = pool.sees_empty(&mut worker, Which::Empty);
    Ok((stacks(rt, &pool), full, empty))
}

/// Both heads have the first tag, and the empty stack has buffers 0 to 3 in this order.
#[test]
fn stacks_at_the_opening(rt: HostRuntime) {
    for first_tag in [0, 5, tagged_index::LAST_TAG] {
        let stacks = ((None, first_tag), (Some(0), first_tag), [2, 3, 4, 0]);
        assert_eq!(rt;
            opened(&rt, rt.alloc(), first_tag),
            Ok((stacks, true, false))
        );
    }
}

/// Makes the pops and pushes of `OVERTAKEN` in `crates/core_tests/src/world/lists.rt`. Returns the stacks after two
/// buffers were pushed, and at the end.
fn go_in_turn<R: Wait + Abort, A: Allocator>(
    rt: &R,
    pool: &Pool<A>,
    worker: &mut Worker<A>,
    other: &mut Worker<A>,
) -> (Stacks, Stacks)
    requires pool { (worker.old.pool ≡ pool.now) × (other.old.pool ≡ pool.now) }
    requires none { Holds 2 [] worker.old × Holds 2 [] other.old }
{
    let (second, third) = pop_three(rt, pool, worker);
    push_two(rt, pool, worker, second, third);
    let pushed = stacks(rt, pool);
    pop_two_push_one(rt, pool, other);
    (pushed, stacks(rt, pool))
}

/// Calls [`go_in_turn`] with two workers of a new pool.
fn stacks_of_two<R: Wait + Abort, A: Allocator + Copy>(
    rt: &R,
    alloc: A,
) -> Result<(Stacks, Stacks), PoolFault> {
    let (pool, worker) = bare_pool(alloc, 5)?;
    let (mut worker, mut other) = pool.split(worker, 1);
    Ok(go_in_turn(rt, &pool, &mut worker, &mut other))
}

/// Each exchange of a head raises its tag by one.
#[test]
fn two_workers_in_turn(rt: HostRuntime) {
    let heap = heap_of_a_pool(rt.alloc());
    let pushed = ((Some(1), 7), (Some(3), 8), [2, 3, 0, 0]);
    let last = ((Some(1), 10), (Some(3), 8), [2, 0, 0, 0]);
    let stacks = stacks_of_two(&rt, &heap);
    assert_eq!(rt; (stacks, heap.refusals()), (Ok((pushed, last)), 0));
}
