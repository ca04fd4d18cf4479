//! A thread for each worker: its work, its start and its join.

ghost use Rattle.std.specs.Prelude.{◌≡◌, ◌<◌, ◌≤◌, ◌+◌, ℕ, IfErr, IfOk, get_or, vec_capacity, vec_len};
ghost use Rattle.buffer_pool.specs.Calls.{Owner};
ghost use Rattle.work_pair.specs.CallEffects.{IsStopOf};
ghost use Rattle.work_pair.specs.declared.stop.Stop.{Stop};
ghost use Rattle.drain.specs.Stops.{IsFaultFrom, IsRefusedThread, stopped};
ghost use Rattle.drain.specs.working.AtWork.{HasGiven, IsSetupOf, IsThrough, Leads};
ghost use Rattle.drain.specs.working.Duties.{AreBackUnder, HasRun, HasStarted, IsDutyUnder};
ghost use Rattle.drain.specs.working.Jobs.{HasWorked, MayRun, MayWork};
ghost use Rattle.drain.specs.working.Tallying.{AreTalliesOfNone, HasTallied, Tallies};

use crate::hooks::{Gate, StartHook};
use crate::job::Job;
use crate::marked::RunFault;
use crate::measured::Measured;
use crate::paired_worker::{Opened, PairedWorker};
use crate::prepared_leader::PreparedLeader;
use crate::supplies::Supplies;
use crate::tally::{TalliedWorker, Tally};
use crate::walk::Walk;
use buffer_pool::{Pool, Worker};
use std::alloc::Allocator;
use std::snapshot::Snapshot;
use std::sync::Wait;
use std::thread;
use std::thread::{Promise, PromisedHandle, Scope, Threads};
use work_pair::Stop;

/// A token that a worker's thread could not be started. Only this module makes one, if the system or the hook of a test
/// refuses the thread. So a crate that calls [`mark`](crate::mark) cannot report a refused thread that nobody started.
#[derive(Clone, Copy, Debug, PartialEq, Eq)]
pub struct RefusedThread(());

/// What the thread of a worker owes: the worker that it began with, now through with its work, and a tally of what that
/// worker finished; or a stop whose token, if it has one, is of the worker's pool.
#[derive(Drop)]
pub struct Duty<A: Allocator, V> {
    /// The worker as it began, with which the returned worker is compared. It is a snapshot, as a promise is plain
    /// data.
    pub begun: Snapshot<Worker<A>>,
    /// The graph that the worker works on.
    pub graph: Snapshot<V>,
}

impl<A: Allocator, V: Measured> Promise<Result<TalliedWorker<A>, Stop>> for Duty<A, V> {
    ghost use Rattle.std.specs.Prelude.{IfErr, IfOk};
    ghost use Rattle.work_pair.specs.CallEffects.{IsStopOf};
    ghost use Rattle.drain.specs.working.AtWork.{IsThrough};
    ghost use Rattle.drain.specs.working.Tallying.{HasTallied};

    ghost kept_by = { λ duty outcome. IfOk outcome (λ t. IsThrough duty.begun.value t.worker
        × HasTallied (V.measure duty.graph.value) t.worker t.tally)
        × IfErr outcome (IsStopOf duty.begun.value.pool) };
}

/// The thread of a worker that was started.
pub type StartedWorker<A, V> = PromisedHandle<Result<TalliedWorker<A>, Stop>, Duty<A, V>>;

/// Does the work of worker `number`: it scans, and waits for more when nothing is left, until all workers are idle or
/// it has waited long enough. Returns the worker at once if there are not two empty buffers for it.
fn work<T: Wait, A: Allocator + Copy, V: Walk, G: Gate, S>(
    rt: &T,
    job: &Job<'_, A, V, G, S>,
    begun: TalliedWorker<A>,
    number: u32,
) -> Result<TalliedWorker<A>, Stop>
    requires may { MayWork V.count V.roots V.pairs V.measure job.now begun.worker begun.tally }
    ensures through { IfOk result (λ t. IsThrough begun.worker t.worker) }
    ensures tally { IfOk result (λ t. HasTallied (V.measure job.now.graph.now) t.worker t.tally) }
    ensures worked { IfOk result (HasWorked job.now.workers begun.worker) }
    ensures of_pool { IfErr result (IsStopOf begun.worker.pool) }
{
    let TalliedWorker { worker, tally } = begun;
    match PairedWorker::open(rt, job.alloc, job.pool, worker)? {
        Opened::Paired(paired) => paired.work(rt, job, number, tally),
        Opened::Unpaired(worker) => Ok(TalliedWorker { worker, tally }),
    }
}

/// Starts the thread of worker `number`. `Err(RunFault::WorkerRefused)` if the hook or the system refuses it.
fn start<'s, E, T, A, V, G, S>(
    rt: &'s T,
    scope: &'s Scope<'s, E>,
    job: &'s Job<'s, A, V, G, S>,
    begun: TalliedWorker<A>,
    number: u32,
) -> Result<StartedWorker<A, V>, RunFault>
where
    T: Wait + Sync,
    A: Allocator + Copy + Send + Sync + 's,
    V: Walk,
    G: Gate,
    S: StartHook,
    requires may { MayWork V.count V.roots V.pairs V.measure job.now begun.worker begun.tally }
    ensures owes { IfOk result (λ t. t.promise.begun.value ≡ begun.worker) }
    ensures graph { IfOk result (λ t. t.promise.graph.value ≡ job.now.graph.now) }
    ensures refused { IfErr result IsRefusedThread }
{
    if !job.hook.may_start(number) {
        return Err(RunFault::WorkerRefused(RefusedThread(())));
    }
    let duty = Duty {
        begun: Snapshot::of(&begun.worker),
        graph: Snapshot::of(job.graph),
    };
    let run = move || -> Result<TalliedWorker<A>, Stop>
        requires may { MayWork V.count V.roots V.pairs V.measure job.now begun.worker begun.tally }
        ensures { IfOk result (λ t. IsThrough begun.worker t.worker
            × HasTallied (V.measure job.entry.now.graph.now) t.worker t.tally)
            × IfErr result (IsStopOf begun.worker.pool) }
    { work(rt, job, begun, number) };
    match scope.spawn_with(duty, run) {
        Ok(thread) => Ok(thread),
        Err(_) => Err(RunFault::WorkerRefused(RefusedThread(()))),
    }
}

/// A leader that gives units away, the threads that were started with them so far, and tallies for the threads that are
/// still to be started.
#[derive(Drop)]
struct Starting<A: Allocator, V: Measured> {
    leader: Worker<A>,
    threads: Vec<StartedWorker<A, V>, A>,
    tallies: Vec<Tally<A>, A>,
}

/// Splits a unit off the leader for worker `number`, and starts the worker's thread with one of the tallies.
fn start_next<'s, E, T, A, V, G, S>(
    rt: &'s T,
    scope: &'s Scope<'s, E>,
    job: &'s Job<'s, A, V, G, S>,
    starting: Starting<A, V>,
    number: u32,
) -> Result<Starting<A, V>, RunFault>
where
    T: Wait + Sync,
    A: Allocator + Copy + Send + Sync + 's,
    V: Walk,
    G: Gate,
    S: StartHook,
    requires pool { starting.leader.pool ≡ job.now.pool.now }
    requires setup { IsSetupOf (V.count job.now.graph.now) (V.roots job.now.graph.now) (V.pairs job.now.graph.now)
        starting.leader.book.setup }
    requires share { 1 < starting.leader.book.account.share }
    requires room { vec_len starting.threads < vec_capacity starting.threads }
    requires tallies { (0 < vec_len starting.tallies)
        × AreTalliesOfNone (V.measure job.now.graph.now) starting.tallies.items }
    ensures started { IfOk result (λ s. (begun : Owner) → number < begun.book.account.share
        → vec_len starting.threads ≡ number
        → HasStarted job.now.graph.now (λ t. t.promise) begun starting.leader starting.threads.items number
        → HasStarted job.now.graph.now (λ t. t.promise) begun s.leader s.threads.items (number + 1)) }
    ensures room { IfOk result (λ s. (vec_len s.threads ≡ vec_len starting.threads + 1)
        × (vec_capacity s.threads ≡ vec_capacity starting.threads)) }
    ensures tallies { IfOk result (λ s. (vec_len s.tallies + 1 ≡ vec_len starting.tallies)
        × AreTalliesOfNone (V.measure job.now.graph.now) s.tallies.items) }
    ensures refused { IfErr result IsRefusedThread }
{
    let Starting {
        leader,
        mut threads,
        mut tallies,
    } = starting;
    let (leader, worker) = job.pool.split(leader, 1);
    let Some(tally) = tallies.pop() else {
        unreachable!();
    };
    let thread = start(rt, scope, job, TalliedWorker { worker, tally }, number)?;
    threads.push_reserved(thread);
    Ok(Starting {
        leader,
        threads,
        tallies,
    })
}

/// Starts a thread for each worker. Returns the threads and the leader with its remaining units, or
/// `Err(RunFault::WorkerRefused)` as soon as a thread is refused.
fn start_all<'s, E, T, A, V, G, S>(
    rt: &'s T,
    scope: &'s Scope<'s, E>,
    job: &'s Job<'s, A, V, G, S>,
    starting: Starting<A, V>,
) -> Result<Starting<A, V>, RunFault>
where
    T: Wait + Sync,
    A: Allocator + Copy + Send + Sync + 's,
    V: Walk,
    G: Gate,
    S: StartHook,
    requires pool { starting.leader.pool ≡ job.now.pool.now }
    requires setup { IsSetupOf (V.count job.now.graph.now) (V.roots job.now.graph.now) (V.pairs job.now.graph.now)
        starting.leader.book.setup }
    requires share { job.now.workers < starting.leader.book.account.share }
    requires room { (vec_len starting.threads ≡ 0) × (job.now.workers ≤ vec_capacity starting.threads) }
    requires tallies { (job.now.workers ≤ vec_len starting.tallies)
        × AreTalliesOfNone (V.measure job.now.graph.now) starting.tallies.items }
    ensures started { IfOk result (λ s. (vec_len s.threads ≡ job.now.workers)
        × HasStarted job.now.graph.now (λ t. t.promise) starting.leader s.leader s.threads.items job.now.workers) }
    ensures refused { IfErr result IsRefusedThread }
{
    let mut starting = starting;
    for number in 0..job.workers {
        starting = start_next(rt, scope, job, starting, number)?;
    }
    Ok(starting)
}

/// Waits for each thread in turn and lists their workers in `back`. Returns at the first thread whose worker was
/// stopped, with the fault of that worker.
pub fn join_all<T: Threads, A: Allocator, V: Measured>(
    rt: &T,
    threads: Vec<StartedWorker<A, V>, A>,
    back: Vec<TalliedWorker<A>, A>,
) -> Result<Vec<TalliedWorker<A>, A>, RunFault>
    requires room { (vec_len back ≡ 0) × (vec_len threads ≤ vec_capacity back) }
    ensures count { IfOk result (λ l. vec_len l ≡ vec_len threads) }
    ensures back { IfOk result (λ l. (graph : _) (leader : Owner) → ((number : ℕ) (t : _) → number < vec_len threads
        → IsDutyUnder graph leader (get_or threads.items number t).promise)
        → AreBackUnder (V.measure graph) leader l.items) }
    ensures refused { IfErr result (λ e. (stop : Stop) × (e ≡ stopped stop)) }
    ensures of_pool { IfErr result (λ e. (graph : _) (leader : Owner) → ((number : ℕ) (t : _) → number < vec_len threads
        → IsDutyUnder graph leader (get_or threads.items number t).promise)
        → IsFaultFrom leader.pool.first_tag e) }
{
    let mut back = back;
    for thread in threads {
        back.push_reserved(thread.join(rt)?);
    }
    Ok(back)
}

/// Starts the thread of each worker and waits for all of them. Returns the leader, and `back` with the workers that are
/// through.
fn run_in_scope<T, A, V, G, S>(
    rt: &T,
    job: &Job<'_, A, V, G, S>,
    starting: Starting<A, V>,
    back: Vec<TalliedWorker<A>, A>,
) -> Result<(Worker<A>, Vec<TalliedWorker<A>, A>), RunFault>
where
    T: Threads + Wait + Sync,
    A: Allocator + Copy + Send + Sync,
    V: Walk,
    G: Gate,
    S: StartHook,
    requires may { MayRun V.count V.roots V.pairs V.measure job.now starting.leader (vec_len starting.threads)
        (vec_capacity starting.threads) (vec_len back) (vec_capacity back) starting.tallies.items
        (vec_len starting.tallies) }
    ensures run { IfOk result (λ s. HasRun (V.measure job.now.graph.now) job.now.workers starting.leader s.0
        s.1.items (vec_len s.1)) }
    ensures of_pool { IfErr result (IsFaultFrom job.now.pool.now.first_tag) }
{
    thread::scope(
        thread::scope_env(),
        rt,
        move |scope| -> Result<(Worker<A>, Vec<TalliedWorker<A>, A>), RunFault>
            requires may { MayRun V.count V.roots V.pairs V.measure job.now starting.leader (vec_len starting.threads)
                (vec_capacity starting.threads) (vec_len back) (vec_capacity back) starting.tallies.items
                (vec_len starting.tallies) }
            ensures run { IfOk result (λ s. HasRun (V.measure job.entry.now.graph.now) job.entry.now.workers
                starting.leader s.0 s.1.items (vec_len s.1)) }
            ensures of_pool { IfErr result (IsFaultFrom job.entry.now.pool.now.first_tag) }
        {
            let started = start_all(rt, scope, job, starting)?;
            let back = join_all(rt, started.threads, back)?;
            Ok((started.leader, back))
        },
    )
}

/// A leader after its workers have ended, and before they are joined to it.
#[derive(Drop)]
pub(crate) struct RunWorkers<A: Allocator> {
    /// The leader with its pair.
    pub(crate) paired: PairedWorker<A>,
    /// The tally of what the leader itself finished.
    pub(crate) tally: Tally<A>,
    /// The workers that are through.
    pub(crate) back: Vec<TalliedWorker<A>, A>,
}

/// Runs the workers of a leader that has given its objects to others. Returns the leader, its tally, and the workers
/// that are through: the last thread has ended, and no worker has been joined to the leader. `ready` includes the
/// leader's pair, so that the clause `given` can refuse a leader that gave nothing away.
pub(crate) fn run_workers<T, A, V, G, S>(
    rt: &T,
    job: &Job<'_, A, V, G, S>,
    ready: PreparedLeader<A, V>,
) -> Result<RunWorkers<A>, RunFault>
where
    T: Threads + Wait + Sync,
    A: Allocator + Copy + Send + Sync,
    V: Walk,
    G: Gate,
    S: StartHook,
    requires pool { ready.paired.worker.pool ≡ job.now.pool.now }
    requires setup { IsSetupOf (V.count job.now.graph.now) (V.roots job.now.graph.now) (V.pairs job.now.graph.now)
        ready.paired.worker.book.setup }
    requires given { HasGiven ready.paired.pair ready.paired.worker }
    requires share { job.now.workers < ready.paired.worker.book.account.share }
    requires room { (vec_len ready.supplies.threads ≡ 0) × (job.now.workers ≤ vec_capacity ready.supplies.threads) }
    requires back { (vec_len ready.supplies.back ≡ 0) × (job.now.workers ≤ vec_capacity ready.supplies.back) }
    requires tallies { (job.now.workers ≤ vec_len ready.supplies.tallies)
        × AreTalliesOfNone (V.measure job.now.graph.now) ready.supplies.tallies.items }
    requires tally { HasTallied (V.measure job.now.graph.now) ready.paired.worker ready.supplies.tally }
    ensures leads { IfOk result (λ s. Leads ready.paired.worker s.paired.worker) }
    ensures pair { IfOk result (λ s. s.paired.pair ≡ ready.paired.pair) }
    ensures share { IfOk result (λ s. s.paired.worker.book.account.share + job.now.workers
        ≡ ready.paired.worker.book.account.share) }
    ensures tally { IfOk result (λ s. HasTallied (V.measure job.now.graph.now) s.paired.worker s.tally) }
    ensures count { IfOk result (λ s. vec_len s.back ≡ job.now.workers) }
    ensures back { IfOk result (λ s. AreBackUnder (V.measure job.now.graph.now) s.paired.worker s.back.items) }
    ensures of_pool { IfErr result (IsFaultFrom job.now.pool.now.first_tag) }
{
    let PreparedLeader {
        paired: PairedWorker {
            worker: leader,
            pair,
        },
        supplies: Supplies {
            threads,
            back,
            tallies,
            tally,
        },
    } = ready;
    let starting = Starting {
        leader,
        threads,
        tallies,
    };
    let (worker, back) = run_in_scope(rt, job, starting, back)?;
    let paired = PairedWorker { worker, pair };
    Ok(RunWorkers {
        paired,
        tally,
        back,
    })
}
