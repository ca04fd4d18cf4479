//! The call that marks a graph, and the leading thread.

ghost use Rattle.std.specs.Prelude.{◌≡◌, ◌<◌, ◌+◌, [], IfErr, IfOk};
ghost use Rattle.mark_core.specs.Shares.{whole};
ghost use Rattle.drain.specs.ExactlyReachable.{ExactlyReachable};
ghost use Rattle.drain.specs.Marks.{IsMarkingOf};
ghost use Rattle.drain.specs.Stops.{IsFaultFrom};
ghost use Rattle.drain.specs.working.AtWork.{HasLed, IsFree, IsSetupOf};
ghost use Rattle.drain.specs.working.Tallying.{HasTallied};

use crate::hooks::{Gate, StartHook, StartsAll};
use crate::job::Job;
use crate::joins::gather;
use crate::marked::{Marked, RunFault};
use crate::options::Options;
use crate::prepared_leader::prepare_leader;
use crate::tally::TalliedWorker;
use crate::walk::Walk;
use crate::walked_graph::WalkedGraph;
use crate::worker_threads::run_workers;
use buffer_pool::{Pool, PoolFault, Worker};
use heap_graph::Graph;
use std::alloc::Allocator;
use std::sync::Wait;
use std::thread::Threads;

/// Claims the roots, gives them to the workers and runs the workers. After all workers have ended, scans the remaining
/// objects, and then joins the workers.
#[tactic(auto, using(crate::proofs::Tokens::of_stop))]
pub fn lead<T, A, V, G, S>(
    rt: &T,
    job: &Job<'_, A, V, G, S>,
    leader: Worker<A>,
) -> Result<TalliedWorker<A>, RunFault>
where
    T: Threads + Wait + Sync,
    A: Allocator + Copy + Send + Sync,
    V: Walk,
    G: Gate,
    S: StartHook,
    requires pool { leader.pool ≡ job.now.pool.now }
    requires setup { IsSetupOf (V.count job.now.graph.now) (V.roots job.now.graph.now) (V.pairs job.now.graph.now)
        leader.book.setup }
    requires free { IsFree leader }
    requires share { job.now.workers + 1 < leader.book.account.share }
    requires none { leader.book.account.finished ≡ [] }
    ensures led { IfOk result (λ t. HasLed leader.book.account.share leader t.worker) }
    ensures tally { IfOk result (λ t. HasTallied (V.measure job.now.graph.now) t.worker t.tally) }
    ensures of_pool { IfErr result (IsFaultFrom job.now.pool.now.first_tag) }
{
    let ready = prepare_leader(rt, job, leader)?;
    let ran = run_workers(rt, job, ready)?;
    Ok(gather(rt, job, ran)?)
}

/// Marks the objects that a path of references joins to a root, with a thread for each worker, and calls the hook
/// `gate` before each object is scanned.
///
/// `Err(RunFault::OutOfMemory)` if an allocation fails: before any thread is started, or for the spill list of a worker
/// or the leader. `Err(RunFault::TagSpent)` if a stack's last tag is loaded when an exchange is due. If several workers
/// stop with one of these two, the fault of the worker with the least number is returned; a fault of the leader's own
/// drain is returned only if no worker stopped. `Err(RunFault::WorkerRefused)` if a thread cannot be started. When
/// `mark` returns, all threads that it started have ended.
pub fn mark<T, A, B, G>(
    rt: &T,
    alloc: A,
    graph: &Graph<'_, B>,
    options: &Options,
    gate: &G,
) -> Result<Marked<A>, RunFault>
where
    T: Threads + Wait + Sync,
    A: Allocator + Copy + Send + Sync,
    B: Allocator + Sync,
    G: Gate,
    ensures exactly_reachable { IfOk result (λ m. ExactlyReachable graph.now m.marks) }
    ensures made { IfOk result (IsMarkingOf graph.now) }
    ensures of_options { IfErr result (IsFaultFrom options.now.first_tag) }
{
    mark_where(rt, alloc, graph, options, gate, &StartsAll)
}

/// Marks like [`mark`], but calls `hook` before each worker's thread is started. `Err(RunFault::WorkerRefused)` also if
/// `hook` refuses one.
pub fn mark_where<T, A, B, G, S>(
    rt: &T,
    alloc: A,
    graph: &Graph<'_, B>,
    options: &Options,
    gate: &G,
    hook: &S,
) -> Result<Marked<A>, RunFault>
where
    T: Threads + Wait + Sync,
    A: Allocator + Copy + Send + Sync,
    B: Allocator + Sync,
    G: Gate,
    S: StartHook,
    ensures exactly_reachable { IfOk result (λ m. ExactlyReachable graph.now m.marks) }
    ensures made { IfOk result (IsMarkingOf graph.now) }
    ensures of_options { IfErr result (IsFaultFrom options.now.first_tag) }
{
    let workers = options.workers();
    let objects = graph.len();
    let walked = WalkedGraph { graph };
    let (pool, leader) = match Pool::new(
        alloc,
        &walked,
        options.buffers(),
        options.buffer(),
        options.first_tag(),
    ) {
        Ok(opened) => opened,
        Err(PoolFault::OutOfMemory) => return Err(RunFault::OutOfMemory),
        Err(PoolFault::BadOptions) => unreachable!(),
    };
    let job = Job {
        alloc,
        graph: &walked,
        pool: &pool,
        gate,
        hook,
        workers,
    };
    let tallied = lead(rt, &job, leader)?;
    let TalliedWorker { worker, tally } = tallied;
    Ok(Marked::new(pool.close(worker), objects, tally))
}
