//! Pops from the empty stack, and pushes on it.

ghost use Rattle.std.specs.Prelude.{◌≡◌, ◌≤◌, All};
ghost use Rattle.pool_bench.specs.Owners.{PopsAndPushes};

use crate::workers::{NumberedWorker, sum_of};
use buffer_pool::{Pool, Popped, Which, Worker};
use std::alloc::{AllocError, Allocator, Global};
use std::sync::Wait;
use std::thread;
use std::thread::Threads;

/// Pops a buffer from the empty stack and pushes it there. Returns `false` if there was none, or if the last tag was
/// reached.
fn turn<R: Wait, A: Allocator>(rt: &R, pool: &Pool<A>, worker: &mut Worker<A>) -> bool
    requires pool { worker.old.pool ≡ pool.now }
    requires awake { worker.old.book.account.idle ≡ 0 }
    ensures pool { worker.new.pool ≡ worker.old.pool }
    ensures turns { PopsAndPushes worker.old.book worker.new.book result }
{
    match pool.pop(rt, worker, Which::Empty) {
        Popped::Took(held) => pool.push(rt, worker, Which::Empty, held).is_ok(),
        Popped::Empty | Popped::Spent => false,
    }
}

/// Takes `turns` turns, and returns the number of those that popped and pushed a buffer.
fn take_turns<R: Wait>(rt: &R, pool: &Pool<Global>, numbered: NumberedWorker, turns: u32) -> u64
    requires pool { numbered.worker.pool ≡ pool.now }
    requires awake { numbered.worker.book.account.idle ≡ 0 }
    ensures { result ≤ turns }
{
    let NumberedWorker {
        mut worker,
        number: _,
    } = numbered;
    let mut moved = 0;
    for _ in 0..turns {
        if turn(rt, pool, &mut worker) {
            moved += 1;
        }
    }
    moved
}

/// Takes `turns` turns with each worker, on a thread of its own. Returns the number of all turns that popped and pushed
/// a buffer.
pub(crate) fn turn_all<R: Threads + Wait + Sync>(
    rt: &R,
    pool: &Pool<Global>,
    workers: Vec<NumberedWorker>,
    turns: u32,
) -> Result<u64, AllocError>
    requires pool { All (λ w. w.worker.pool ≡ pool.now) workers.items }
    requires awake { All (λ w. w.worker.book.account.idle ≡ 0) workers.items }
{
    let take = |numbered: NumberedWorker| -> u64
        requires { (numbered.worker.pool ≡ pool.now) × (numbered.worker.book.account.idle ≡ 0) }
    { take_turns(rt, pool, numbered, turns) };
    let moved = thread::map_vec(rt, workers, &take)?;
    Ok(sum_of(moved.as_slice()))
}
