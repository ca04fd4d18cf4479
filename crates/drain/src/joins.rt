//! The joins: the leader scans what its workers left, and then takes in the workers and their tallies.

ghost use Rattle.std.specs.Prelude.{◌≡◌, ◌+◌, [], ℕ, Contains, IfErr, IfOk, vec_len};
ghost use Rattle.work_pair.specs.CallEffects.{IsStopOf};
ghost use Rattle.drain.specs.working.AtWork.{IsFree, Leads};
ghost use Rattle.drain.specs.working.Duties.{AreBackUnder, IsBackUnder};
ghost use Rattle.drain.specs.working.Jobs.{IsOnJob};
ghost use Rattle.drain.specs.working.Tallies.{IsMeasureOf};
ghost use Rattle.drain.specs.working.Tallying.{HasTallied};

use crate::hooks::Gate;
use crate::job::Job;
use crate::measured::Measured;
use crate::tally::TalliedWorker;
use crate::walk::Walk;
use crate::worker_threads::RunWorkers;
use buffer_pool::Pool;
use std::alloc::Allocator;
use std::sync::Wait;
use work_pair::Stop;

/// Joins the worker of `back` to the leader, and its tally to the leader's tally. The worker must be through.
fn join_share<A: Allocator, V: Measured>(
    graph: &V,
    pool: &Pool<A>,
    leader: TalliedWorker<A>,
    back: TalliedWorker<A>,
) -> TalliedWorker<A>
    requires pool { leader.worker.pool ≡ pool.now }
    requires free { IsFree leader.worker }
    requires back { IsBackUnder (V.measure graph.now) leader.worker back.worker back.tally }
    requires measure { IsMeasureOf leader.worker.book.setup.objects (V.measure graph.now) }
    requires tally { HasTallied (V.measure graph.now) leader.worker leader.tally }
    ensures leads { Leads leader.worker result.worker }
    ensures free { IsFree result.worker }
    ensures share { result.worker.book.account.share ≡ leader.worker.book.account.share + 1 }
    ensures tally { HasTallied (V.measure graph.now) result.worker result.tally }
{
    let TalliedWorker { worker, mut tally } = leader;
    let TalliedWorker {
        worker: other,
        tally: more,
    } = back;
    worker.recall_few_finished();
    other.recall_few_finished();
    tally.join(&more);
    let worker = pool.join(worker, other);
    TalliedWorker { worker, tally }
}

/// Joins the workers of `back` to the leader, and their tallies to the leader's tally. The workers must be through, and
/// the leader must have returned its buffers.
fn join_shares<A: Allocator, V: Measured>(
    graph: &V,
    pool: &Pool<A>,
    leader: TalliedWorker<A>,
    back: Vec<TalliedWorker<A>, A>,
) -> TalliedWorker<A>
    requires pool { leader.worker.pool ≡ pool.now }
    requires free { IsFree leader.worker }
    requires back { AreBackUnder (V.measure graph.now) leader.worker back.items }
    requires measure { IsMeasureOf leader.worker.book.setup.objects (V.measure graph.now) }
    requires tally { HasTallied (V.measure graph.now) leader.worker leader.tally }
    ensures leads { Leads leader.worker result.worker }
    ensures free { IsFree result.worker }
    ensures share { result.worker.book.account.share ≡ leader.worker.book.account.share + vec_len back }
    ensures tally { HasTallied (V.measure graph.now) result.worker result.tally }
{
    let mut leader = leader;
    for other in back {
        leader = join_share(graph, pool, leader, other);
    }
    leader
}

/// Scans the remaining objects after all workers have ended, and then joins the workers.
pub(crate) fn gather<R: Wait, A: Allocator, V: Walk, G: Gate, S>(
    rt: &R,
    job: &Job<'_, A, V, G, S>,
    ran: RunWorkers<A>,
) -> Result<TalliedWorker<A>, Stop>
    requires on_job { IsOnJob V.count V.roots V.pairs V.measure job.now [] ran.paired ran.tally }
    requires back { AreBackUnder (V.measure job.now.graph.now) ran.paired.worker ran.back.items }
    ensures pool { IfOk result (λ t. t.worker.pool ≡ ran.paired.worker.pool) }
    ensures setup { IfOk result (λ t. t.worker.book.setup ≡ ran.paired.worker.book.setup) }
    ensures seen { IfOk result (λ t. (o : ℕ) → Contains ran.paired.worker.book.account.seen o
        → Contains t.worker.book.account.seen o) }
    ensures share { IfOk result (λ t. t.worker.book.account.share
        ≡ ran.paired.worker.book.account.share + vec_len ran.back) }
    ensures free { IfOk result (λ t. IsFree t.worker) }
    ensures tally { IfOk result (λ t. HasTallied (V.measure job.now.graph.now) t.worker t.tally) }
    ensures of_pool { IfErr result (IsStopOf job.now.pool.now) }
{
    let RunWorkers {
        paired,
        tally,
        back,
    } = ran;
    let drained = paired.end(rt, job, tally)?;
    job.graph.recall_measure();
    Ok(join_shares(job.graph, job.pool, drained, back))
}
