//! Four threads that pop and push four buffers at the same time. A thread loses an exchange if another thread has
//! exchanged the same head since the first thread's load. How many exchanges are lost depends on the machine: none, if
//! a single processor runs the threads one after another. A test cannot hold up a call of a pool between its load and
//! its exchange. So losses are counted and not required.
ghost use Rattle.std.specs.Prelude.{◌≡◌, [], ◌∷◌, IfOk, MatchOption};
ghost use Rattle.mark_core.specs.Shares.{whole};
ghost use Rattle.pool_tests.specs.Worked.{Holds, bare};

use crate::waiting::{BUFFERS, bare_pool, head, push_bare};
use buffer_pool::{Held, Pool, PoolFault, Popped, TryPopped, Which, Worker};
use std::alloc::{Allocator, Global};
use std::process::Abort;
use std::sync::Wait;
use std::test::Fail;
use std::thread::{Threads, join};

/// The rounds of each of the four threads.
const ROUNDS: u32 = 20_000;

/// A worker, the number of exchanges of a head that it has won, and the number of calls of `try_pop` that it has lost,
/// each with those of the workers that were joined to it.
#[derive(Drop)]
struct Racer {
    worker: Worker<Global>,
    won: u64,
    lost: u64,
}

/// Pops the buffer on top of the stack `which`, and tests that it has no items. Returns `None` if the stack has no
/// buffer.
fn pop_any<R: Wait + Abort, A: Allocator>(
    rt: &R,
    pool: &Pool<A>,
    worker: &mut Worker<A>,
    which: Which,
) -> Option<Held<A>>
    requires pool { worker.old.pool ≡ pool.now }
    requires none { Holds 2 [] worker.old }
    ensures pool { worker.new.pool ≡ worker.old.pool }
    ensures held { MatchOption result (Holds 2 [] worker.new)
        (λ h. Holds 2 (h.index ∷ []) worker.new × (h ≡ bare 2 h.index)) }
{
    match pool.pop(rt, worker, which) {
        Popped::Took(held) => {
            assert_eq!(rt; held.len(), 0);
            Some(held)
        }
        Popped::Empty => None,
        Popped::Spent => panic!(rt; "no tag is near the last one"),
    }
}

/// Moves the buffer on top of the stack `from` to the stack `to`. Returns how many exchanges were won: two, or none if
/// `from` has no buffer.
fn carry<R: Wait + Abort, A: Allocator>(
    rt: &R,
    pool: &Pool<A>,
    worker: &mut Worker<A>,
    from: Which,
    to: Which,
) -> u64
    requires pool { worker.old.pool ≡ pool.now }
    requires none { Holds 2 [] worker.old }
    ensures pool { worker.new.pool ≡ worker.old.pool }
    ensures none { Holds 2 [] worker.new }
{
    match pop_any(rt, pool, worker, from) {
        Some(held) => {
            push_bare(rt, pool, worker, to, held);
            2
        }
        None => 0,
    }
}

/// Tries once to pop from the empty stack. Pushes a popped buffer back, and then adds the two exchanges to `won`.
/// Returns whether the try was lost.
fn loses<R: Wait + Abort, A: Allocator>(
    rt: &R,
    pool: &Pool<A>,
    worker: &mut Worker<A>,
    won: &mut u64,
) -> bool
    requires pool { worker.old.pool ≡ pool.now }
    requires none { Holds 2 [] worker.old }
    ensures pool { worker.new.pool ≡ worker.old.pool }
    ensures none { Holds 2 [] worker.new }
{
    match pool.try_pop(worker, Which::Empty) {
        TryPopped::Took(held) => {
            assert_eq!(rt; held.len(), 0);
            push_bare(rt, pool, worker, Which::Empty, held);
            *won = won.saturating_add(2);
            false
        }
        TryPopped::Empty => false,
        TryPopped::Lost => true,
        TryPopped::Spent => panic!(rt; "no tag is near the last one"),
    }
}

/// Moves buffers to and fro between the stacks, and tries once to pop in each round.
fn run<R: Wait + Abort>(rt: &R, pool: &Pool<Global>, worker: Worker<Global>) -> Racer
    requires pool { worker.pool ≡ pool.now }
    requires none { Holds 2 [] worker }
    ensures pool { result.worker.pool ≡ pool.now }
    ensures none { Holds 2 [] result.worker }
{
    let mut worker = worker;
    let mut won = 0u64;
    let mut lost = 0u64;
    for _ in 0..ROUNDS {
        won = won.saturating_add(carry(rt, pool, &mut worker, Which::Empty, Which::Full));
        won = won.saturating_add(carry(rt, pool, &mut worker, Which::Full, Which::Empty));
        if loses(rt, pool, &mut worker, &mut won) {
            lost = lost.saturating_add(1);
        }
    }
    Racer { worker, won, lost }
}

/// Runs two threads side by side, and unites their results.
fn run_two<R: Threads + Wait + Abort + Sync>(
    rt: &R,
    pool: &Pool<Global>,
    first: Worker<Global>,
    second: Worker<Global>,
) -> Racer
    requires pool { (first.pool ≡ pool.now) × (second.pool ≡ pool.now) }
    requires none { Holds 2 [] first × Holds 2 [] second }
    ensures pool { result.worker.pool ≡ pool.now }
    ensures none { Holds 2 [] result.worker }
{
    let (first, second) = join(
        rt,
        move || run(rt, pool, first),
        move || run(rt, pool, second),
    );
    both(pool, first, second)
}

fn both(pool: &Pool<Global>, first: Racer, second: Racer) -> Racer
    requires pool { (first.worker.pool ≡ pool.now) × (second.worker.pool ≡ pool.now) }
    requires none { Holds 2 [] first.worker × Holds 2 [] second.worker }
    ensures pool { result.worker.pool ≡ pool.now }
    ensures none { Holds 2 [] result.worker }
{
    Racer {
        worker: pool.join(first.worker, second.worker),
        won: first.won.saturating_add(second.won),
        lost: first.lost.saturating_add(second.lost),
    }
}

/// Moves all buffers back to the empty stack. Returns how many exchanges were won in all, and how many tries were lost.
fn carry_back<R: Wait + Abort>(rt: &R, pool: &Pool<Global>, racer: Racer) -> (u64, u64)
    requires pool { racer.worker.pool ≡ pool.now }
    requires none { Holds 2 [] racer.worker }
{
    let Racer {
        mut worker,
        mut won,
        lost,
    } = racer;
    for _ in 0..BUFFERS {
        won = won.saturating_add(carry(rt, pool, &mut worker, Which::Full, Which::Empty));
    }
    (won, lost)
}

/// Splits `worker` in four, and runs these workers. Returns how many exchanges were won in all, and how many tries were
/// lost.
fn run_four<R: Threads + Wait + Abort + Sync>(
    rt: &R,
    pool: &Pool<Global>,
    worker: Worker<Global>,
) -> (u64, u64)
    requires pool { worker.pool ≡ pool.now }
    requires none { Holds 2 [] worker }
    requires share { worker.book.account.share ≡ whole }
{
    let (first, worker) = pool.split(worker, 30_000);
    let (second, worker) = pool.split(worker, 20_000);
    let (third, fourth) = pool.split(worker, 10_000);
    let (front, back) = join(
        rt,
        move || -> Racer
            requires pool { (first.pool ≡ pool.now) × (second.pool ≡ pool.now) }
            requires none { Holds 2 [] first × Holds 2 [] second }
        { run_two(rt, pool, first, second) },
        move || -> Racer
            requires pool { (third.pool ≡ pool.now) × (fourth.pool ≡ pool.now) }
            requires none { Holds 2 [] third × Holds 2 [] fourth }
        { run_two(rt, pool, third, fourth) },
    );
    carry_back(rt, pool, both(pool, front, back))
}

/// The full stack's top, the tags of the full stack and of the empty one, how many exchanges were won, and how many
/// tries were lost.
type Race = (Option<u32>, [u64; 2], u64, u64);

/// Runs four workers in a new pool.
fn race<R: Threads + Wait + Abort + Sync>(rt: &R, alloc: Global) -> Result<Race, PoolFault> {
    let (pool, worker) = bare_pool(alloc, 0)?;
    let (won, lost) = run_four(rt, &pool, worker);
    let (top, full_tag) = head(rt, &pool, Which::Full);
    let (_, empty_tag) = head(rt, &pool, Which::Empty);
    Ok((top, [full_tag, empty_tag], won, lost))
}

/// All pops and pushes end, even if threads lose exchanges, and the tags count the exchanges that were won. A try is
/// lost only to an exchange that another thread won since the try's load. Each exchange that is won costs each of the
/// three other threads at most one try.
#[test]
fn lost_exchanges(rt: HostRuntime) -> Result<(), Fail> {
    let (top, [full_tag, empty_tag], won, lost) = race(&rt, rt.alloc())?;
    assert_eq!(rt; top, None);
    assert_eq!(rt; full_tag.saturating_add(empty_tag), won);
    assert!(rt;
        lost <= won.saturating_mul(3),
        "{lost} tries were lost, {won} exchanges won"
    );
    Ok(())
}
