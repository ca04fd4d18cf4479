//! Claims of objects. A row is a number of neighbouring objects; the last row may be shorter. The rows are dealt to the
//! threads in turn, and each thread claims the objects of its own rows.

ghost use Rattle.std.specs.Prelude.{◌≡◌, All};
ghost use Rattle.pool_bench.specs.Owners.{AreRoots, HasSeen, SamePool};

use crate::sizes::Sizes;
use crate::workers::{NumberedWorker, sum_of};
use buffer_pool::{Pool, Worker};
use std::alloc::{AllocError, Allocator, Global};
use std::thread;
use std::thread::Threads;

/// Claims the objects from `from` up to but not including `to`, and returns how many were white.
fn claim_part<A: Allocator>(pool: &Pool<A>, worker: &mut Worker<A>, from: u32, to: u32) -> u32
    requires pool { worker.old.pool ≡ pool.now }
    requires roots { AreRoots to worker.old }
    requires awake { worker.old.book.account.idle ≡ 0 }
    ensures same { SamePool worker.old worker.new }
    ensures seen { HasSeen from to worker.new }
{
    let mut white = 0;
    for object in from..to {
        if pool.claim(worker, object) {
            white += 1;
        }
    }
    white
}

/// Claims each object of the rows of thread `number` once, and returns how many were white.
fn claim_rows(pool: &Pool<Global>, worker: &mut Worker<Global>, number: u32, sizes: Sizes) -> u32
    requires pool { worker.old.pool ≡ pool.now }
    requires roots { AreRoots sizes.objects worker.old }
    requires awake { worker.old.book.account.idle ≡ 0 }
    ensures same { SamePool worker.old worker.new }
{
    let rows_of_all = sizes.row.saturating_mul(sizes.threads);
    let first = sizes.row.saturating_mul(number);
    let mut white = 0u32;
    for round in 0..sizes.objects.div_ceil(rows_of_all) {
        let from = round.saturating_mul(rows_of_all).saturating_add(first);
        let to = from.saturating_add(sizes.row).min(sizes.objects);
        white = white.saturating_add(claim_part(pool, worker, from, to));
    }
    white
}

/// Claims each object of the rows of `numbered` in each pass, and returns how many claims found a white object.
fn claim_passes(pool: &Pool<Global>, numbered: NumberedWorker, sizes: Sizes) -> u64
    requires pool { numbered.worker.pool ≡ pool.now }
    requires roots { AreRoots sizes.objects numbered.worker }
    requires awake { numbered.worker.book.account.idle ≡ 0 }
{
    let NumberedWorker { mut worker, number } = numbered;
    let mut white = 0;
    for _ in 0..sizes.passes {
        white += u64::from(claim_rows(pool, &mut worker, number, sizes));
    }
    white
}

/// Claims all objects in each pass: each worker, on a thread of its own, claims those of its rows. Returns how many
/// claims found a white object.
pub(crate) fn claim_all<R: Threads + Sync>(
    rt: &R,
    pool: &Pool<Global>,
    workers: Vec<NumberedWorker>,
    sizes: Sizes,
) -> Result<u64, AllocError>
    requires pool { All (λ w. w.worker.pool ≡ pool.now) workers.items }
    requires roots { All (λ w. AreRoots sizes.objects w.worker) workers.items }
    requires awake { All (λ w. w.worker.book.account.idle ≡ 0) workers.items }
{
    let claim = |numbered: NumberedWorker| -> u64
        requires { (numbered.worker.pool ≡ pool.now) × AreRoots sizes.objects numbered.worker
            × (numbered.worker.book.account.idle ≡ 0) }
    { claim_passes(pool, numbered, sizes) };
    let white = thread::map_vec(rt, workers, &claim)?;
    Ok(sum_of(white.as_slice()))
}
