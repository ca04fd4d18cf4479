//! A worker for each thread.

ghost use Rattle.std.specs.Prelude.{◌≡◌, ◌<◌, ◌≤◌, All, IfOk, vec_len};
ghost use Rattle.pool_bench.specs.Owners.{SamePool};

use buffer_pool::{Pool, Worker};
use std::alloc::{AllocError, Global};

/// A worker and its number. The workers of a run are numbered from 0.
#[derive(Drop)]
pub(crate) struct NumberedWorker {
    /// The worker of one thread.
    pub(crate) worker: Worker<Global>,
    /// The number of the worker and its thread.
    pub(crate) number: u32,
}

/// Splits `worker` into `threads` workers, each with a number of its own from 0 on.
pub(crate) fn split_among(
    alloc: Global,
    pool: &Pool<Global>,
    worker: Worker<Global>,
    threads: u32,
) -> Result<Vec<NumberedWorker>, AllocError>
    requires pool { worker.pool ≡ pool.now }
    requires some { 0 < threads }
    requires share { threads ≤ worker.book.account.share }
    requires awake { worker.book.account.idle ≡ 0 }
    ensures count { IfOk result (λ v. vec_len v ≡ threads) }
    ensures same { IfOk result (λ v. All (λ w. SamePool worker w.worker) v.items) }
{
    let mut workers = Vec::new(alloc);
    let mut first = worker;
    for number in 1..threads {
        let (kept, given) = pool.split(first, 1);
        first = kept;
        workers.push(NumberedWorker {
            worker: given,
            number,
        })?;
    }
    workers.push(NumberedWorker {
        worker: first,
        number: 0,
    })?;
    Ok(workers)
}

/// Returns the sum of `counts`, or the largest `u64` if the sum is larger.
pub(crate) fn sum_of(counts: &[u64]) -> u64 {
    counts
        .iter()
        .fold(0, |sum: u64, count| sum.saturating_add(*count))
}
