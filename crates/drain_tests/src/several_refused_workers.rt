//! Which fault is returned if several workers are stopped.

ghost use Rattle.std.specs.Prelude.{◌≡◌, ◌<◌, ◌≤◌, ℕ, IfErr, IfOk, IfSome, get_or, length, vec_capacity, vec_len};
ghost use Rattle.buffer_pool.specs.Calls.{PoolId, first_tag_of};
ghost use Rattle.work_pair.specs.CallEffects.{IsStopOf};
ghost use Rattle.drain.specs.working.AtWork.{IsFree, IsThrough, Leads};
ghost use Rattle.drain.specs.working.Duties.{IsDutyUnder};
ghost use Rattle.drain.specs.working.Tallying.{HasTallied};

use crate::faults::{Fault, Tokens, make_tokens};
use buffer_pool::{Edges, Pool, SpentTag, Worker};
use drain::inside::{Duty, Measured, StartedWorker, TalliedWorker, Tally, join_all};
use drain::{Options, RefusedThread, RunFault};
use std::alloc::Global;
use std::snapshot::Snapshot;
use std::sync::Wait;
use std::test::Fail;
use std::thread;
use std::thread::{Scope, Threads};
use work_pair::Stop;

/// A graph without objects.
#[derive(Drop)]
struct Nothing;

impl Edges for Nothing {
    ghost use Rattle.std.specs.Prelude.{[]};

    ghost count = { λ _. 0 };

    ghost roots = { λ _. [] };

    ghost pairs = { λ _. [] };

    fn objects(&self) -> u32 {
        0
    }
}

impl Measured for Nothing {
    ghost use Rattle.std.specs.Prelude.{ℕ};
    ghost use Rattle.drain.specs.working.Tallies.{Measure};

    ghost measure = { λ _. record { rows = 1; row = λ _. 0; bytes = λ _. 0; unresolved = λ _. 0 } };

    fn recall_measure(&self) {}

    fn rows(&self) -> usize {
        1
    }
}

/// Returns the stop for `fault`, with `token` if a tag was spent. No other fault stops a worker.
fn stop_of(fault: Option<Fault>, token: SpentTag) -> Option<Stop>
    ensures { IfSome result (λ stop. (pool : PoolId) → first_tag_of token ≡ pool.first_tag → IsStopOf pool stop) }
{
    match fault {
        Some(Fault::TagSpent) => Some(Stop::TagSpent(token)),
        Some(Fault::OutOfMemory) => Some(Stop::OutOfMemory),
        Some(Fault::WorkerRefused) | None => None,
    }
}

/// Starts a thread that returns `begun`, or `stop` if there is one. `refused` is the token for a thread that the system
/// refuses.
fn answer<'s, E, V: Measured + Sync>(
    scope: &'s Scope<'s, E>,
    graph: &'s V,
    begun: TalliedWorker<Global>,
    stop: Option<Stop>,
    refused: RefusedThread,
) -> Result<StartedWorker<Global, V>, RunFault>
    requires free { IsFree begun.worker }
    requires tally { HasTallied (V.measure graph.now) begun.worker begun.tally }
    requires stop { IfSome stop (IsStopOf begun.worker.pool) }
    ensures owes { IfOk result (λ t. t.promise.begun.value ≡ begun.worker) }
    ensures graph { IfOk result (λ t. t.promise.graph.value ≡ graph.now) }
{
    let duty = Duty {
        begun: Snapshot::of(&begun.worker),
        graph: Snapshot::of(graph),
    };
    let run = move || -> Result<TalliedWorker<Global>, Stop>
        requires free { IsFree begun.worker }
        requires tally { HasTallied (V.measure graph.now) begun.worker begun.tally }
        requires stop { IfSome stop (IsStopOf begun.worker.pool) }
        ensures { IfOk result (λ t. IsThrough begun.worker t.worker
            × HasTallied (V.measure graph.entry.now) t.worker t.tally)
            × IfErr result (IsStopOf begun.worker.pool) }
    {
        graph.recall_measure();
        match stop {
            None => Ok(begun),
            Some(stop) => Err(stop),
        }
    };
    match scope.spawn_with(duty, run) {
        Ok(thread) => Ok(thread),
        Err(_) => Err(RunFault::WorkerRefused(refused)),
    }
}

/// Splits a worker off `leader` for each of `stops`, and starts a thread that returns the worker, or is stopped if
/// there is a fault. `tokens` are those of faults. Returns the leader and the threads.
fn answer_all<'s, E, V: Measured + Sync>(
    scope: &'s Scope<'s, E>,
    alloc: Global,
    graph: &'s V,
    pool: &Pool<Global>,
    leader: Worker<Global>,
    stops: &[Option<Fault>],
    tokens: Tokens,
) -> Result<(Worker<Global>, Vec<StartedWorker<Global, V>>), RunFault>
    requires pool { leader.pool ≡ pool.now }
    requires share { length stops.now < leader.book.account.share }
    requires token { first_tag_of tokens.spent_tag ≡ pool.now.first_tag }
    ensures leads { IfOk result (λ s. Leads leader s.0) }
    ensures finished { IfOk result (λ s. s.0.book.account.finished ≡ leader.book.account.finished) }
    ensures count { IfOk result (λ s. vec_len s.1 ≡ length stops.now) }
    ensures threads { IfOk result (λ s. (number : ℕ) (t : _) → number < length stops.now
        → IsDutyUnder graph.now leader (get_or s.1.items number t).promise) }
{
    let mut leader = leader;
    let mut threads = Vec::with_capacity(alloc, stops.len())?;
    for number in 0..stops.len() {
        let (rest, worker) = pool.split(leader, 1);
        leader = rest;
        let tally = Tally::new(alloc, graph.rows())?;
        let begun = TalliedWorker { worker, tally };
        let stop = stop_of(stops[number], tokens.spent_tag);
        let thread = answer(scope, graph, begun, stop, tokens.refused_thread)?;
        threads.push_reserved(thread);
    }
    Ok((leader, threads))
}

/// Starts a thread for each of `stops` and joins the threads. Returns the fault that starting or joining returns, or
/// `None`.
fn told<T: Threads + Wait, V: Measured + Sync>(
    rt: &T,
    alloc: Global,
    graph: &V,
    stops: &[Option<Fault>],
    tokens: Tokens,
) -> Result<Option<RunFault>, Fail>
    requires few { length stops.now ≤ 64 }
    requires token { first_tag_of tokens.spent_tag ≡ 281474976710655 }
{
    let back = Vec::with_capacity(alloc, stops.len())?;
    let Ok((pool, leader)) = Pool::new(alloc, graph, 4, 2, Options::LAST_TAG) else {
        return Err("the pool was refused".into());
    };
    let pool = &pool;
    let outcome = thread::scope(
        thread::scope_env(),
        rt,
        move |scope| -> Result<Vec<TalliedWorker<Global>>, RunFault>
            requires pool { leader.pool ≡ pool.now }
            requires share { length stops.now < leader.book.account.share }
            requires token { first_tag_of tokens.spent_tag ≡ pool.now.first_tag }
            requires room { (vec_len back ≡ 0) × (length stops.now ≤ vec_capacity back) }
        {
            let (_leader, threads) = answer_all(scope, alloc, graph, pool, leader, stops, tokens)?;
            join_all(rt, threads, back)
        },
    );
    Ok(outcome.err())
}

const TAG: Option<Fault> = Some(Fault::TagSpent);

const MEMORY: Option<Fault> = Some(Fault::OutOfMemory);

/// For each worker the fault with which its thread is stopped, or `None` if that returns the worker; and the fault that
/// joining the threads returns.
static ANSWERS: [(&[Option<Fault>], Option<Fault>); 7] = [
    (&[], None),
    (&[None, None, None], None),
    (&[None, None, TAG], TAG),
    (&[TAG, MEMORY, None], TAG),
    (&[MEMORY, TAG, None], MEMORY),
    (&[None, TAG, MEMORY], TAG),
    (&[None, MEMORY, TAG, TAG], MEMORY),
];

#[test]
fn of_the_refused_workers_the_one_with_the_least_number_is_told(
    rt: HostRuntime,
) -> Result<(), Fail> {
    let tokens = make_tokens(&rt, rt.alloc())?;
    for (stops, want) in ANSWERS {
        let outcome = told(&rt, rt.alloc(), &Nothing, stops, tokens)?;
        assert_eq!(rt; outcome.map(Fault::from), want);
    }
    Ok(())
}
