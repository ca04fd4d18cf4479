//! What no clause of a marking says: when the hook is called for an object, that a leader without buffers drains, and
//! how long a worker waits.

ghost use Rattle.std.specs.Prelude.{◌≡◌, ◌<◌, ◌≤◌, ◌+◌};
ghost use Rattle.mark_core.specs.Events.{IsBusy};
ghost use Rattle.drain.specs.working.AtWork.{IsFree};

use crate::dumps::{graph_of, wide_array};
use buffer_pool::{Edges, Pool, Worker};
use drain::Gate;
use drain::inside::{Job, Measured, StartHook, StartsAll, Walk, WalkedGraph, lead};
use heap_graph::{Skip, Visit};
use std::alloc::Global;
use std::sync::Wait;
use std::sync::atomic::{AtomicU64, Ordering};
use std::test::Fail;
use std::thread;
use std::thread::Threads;
use std::time::{Clock, Duration, Instant};
use work_pair::Pair;

/// The most times that the start of a thread is held up for 1 ms.
const TURNS: u32 = 20_000;

/// The graph of a dump with at most 64 objects. It counts the visits of objects for which the hook was not called yet.
#[derive(Drop)]
struct Watched<'a, 'b, 'c> {
    walked: WalkedGraph<'a, 'b, Global>,
    /// A bit for each object for which the hook was called.
    passed: &'c AtomicU64,
    /// The number of times that an object was visited before the hook was called for it.
    early: &'c AtomicU64,
}

impl Edges for Watched<'_, '_, '_> {
    ghost use Rattle.heap_graph.specs.ObjectGraph.{object_count};
    ghost use Rattle.drain.specs.working.Pairs.{pairs_of};

    ghost count = { λ w. object_count w.walked.graph.now };

    ghost roots = { λ w. w.walked.graph.now.roots };

    ghost pairs = { λ w. pairs_of w.walked.graph.now };

    fn objects(&self) -> u32 {
        self.walked.objects()
    }
}

impl Measured for Watched<'_, '_, '_> {
    ghost use Rattle.drain.specs.working.Measures.{measure_of};

    ghost measure = { λ w. measure_of w.walked.graph.now };

    fn recall_measure(&self) {
        self.walked.recall_measure();
    }

    fn rows(&self) -> usize {
        self.walked.rows()
    }
}

impl Walk for Watched<'_, '_, '_> {
    type Alloc = Global;

    fn roots(&self) -> &[u32] {
        self.walked.roots()
    }

    fn visit(&self, object: u32) -> Visit<'_, Global> {
        if self.passed.load(Ordering::SeqCst) & (1 << (object % 64)) == 0 {
            self.early.fetch_add(1, Ordering::SeqCst);
        }
        self.walked.visit(object)
    }
}

/// Notes each object for which it is called.
#[derive(Drop)]
struct Passes<'a> {
    passed: &'a AtomicU64,
}

impl Gate for Passes<'_> {
    fn before_scan(&self, _worker: u32, object: u32) {
        self.passed.fetch_or(1 << (object % 64), Ordering::SeqCst);
    }
}

/// Starts every worker but the first only when a worker has begun a scan, and so has its pair. Refuses the thread if no
/// worker begins one.
#[derive(Drop)]
struct AfterAScan<'a, C: Clock> {
    clock: C,
    /// A bit for each object for which the hook before a scan was called.
    passed: &'a AtomicU64,
}

impl<C: Clock> AfterAScan<'_, C> {
    fn sees_a_scan(&self) -> bool {
        for _ in 0..TURNS {
            if self.passed.load(Ordering::SeqCst) != 0 {
                return true;
            }
            thread::sleep(&self.clock, Duration::from_millis(1));
        }
        false
    }
}

impl<C: Clock + Sync> StartHook for AfterAScan<'_, C> {
    fn may_start(&self, worker: u32) -> bool {
        worker == 0 || self.sees_a_scan()
    }
}

/// Opens a pair for `worker` and drops both, so that no other worker finds the pair's two buffers any more.
fn take_pair<T: Wait>(rt: &T, alloc: Global, pool: &Pool<Global>, worker: Worker<Global>)
    requires pool { worker.pool ≡ pool.now }
    requires busy { IsBusy worker.book.account }
{
    let mut worker = worker;
    let _pair = Pair::open(rt, alloc, pool, &mut worker);
}

/// Splits `others` workers off `leader`, each of which takes two buffers. Returns the leader.
fn behind_others<T: Wait>(
    rt: &T,
    alloc: Global,
    pool: &Pool<Global>,
    leader: Worker<Global>,
    others: u32,
) -> Worker<Global>
    requires pool { leader.pool ≡ pool.now }
    requires free { IsFree leader }
    requires share { others < leader.book.account.share }
    ensures pool { result.pool ≡ leader.pool }
    ensures setup { result.book.setup ≡ leader.book.setup }
    ensures free { IsFree result }
    ensures finished { result.book.account.finished ≡ leader.book.account.finished }
    ensures share { result.book.account.share + others ≡ leader.book.account.share }
{
    let mut leader = leader;
    for _ in 0..others {
        let (rest, other) = pool.split(leader, 1);
        leader = rest;
        take_pair(rt, alloc, pool, other);
    }
    leader
}

/// Marks `watched` with `workers` workers and `buffers` buffers of two objects. `others` other workers have taken two
/// buffers each. Calls `hook` before each worker's thread is started. Returns whether the marking was done.
fn lead_watched<T: Threads + Wait + Sync, S: StartHook>(
    rt: &T,
    alloc: Global,
    watched: &Watched<'_, '_, '_>,
    workers: u32,
    buffers: u32,
    others: u32,
    hook: &S,
) -> bool
    requires { workers + others ≤ 64 }
{
    let Ok((pool, leader)) = Pool::new(alloc, watched, buffers, 2, 0) else {
        return false;
    };
    let leader = behind_others(rt, alloc, &pool, leader, others);
    let job = Job {
        alloc,
        graph: watched,
        pool: &pool,
        gate: &Passes {
            passed: watched.passed,
        },
        hook,
        workers,
    };
    lead(rt, &job, leader).is_ok()
}

/// Marks the wide array like [`lead_watched`]. Sets a bit of `passed` for each object for which the hook before a scan
/// is called. Returns whether the marking was done, for how many objects that hook was called, and how many visits of
/// an object came before the hook's call for that object.
fn lead_over_array<T: Threads + Wait + Sync, S: StartHook>(
    rt: &T,
    alloc: Global,
    workers: u32,
    buffers: u32,
    others: u32,
    passed: &AtomicU64,
    hook: &S,
) -> Result<(bool, u32, u64), Fail>
    requires { workers + others ≤ 64 }
{
    let dump = wide_array(alloc)?;
    let skip = Skip::none(alloc);
    let graph = graph_of(rt, alloc, dump.as_slice(), &skip)?;
    let early = AtomicU64::new(0);
    let watched = Watched {
        walked: WalkedGraph { graph: &graph },
        passed,
        early: &early,
    };
    let done = lead_watched(rt, alloc, &watched, workers, buffers, others, hook);
    drop(graph);
    Ok((
        done,
        passed.load(Ordering::SeqCst).count_ones(),
        early.load(Ordering::SeqCst),
    ))
}

/// Marks the wide array like [`lead_over_array`]. Each thread is started at once.
fn lead_at_once<T: Threads + Wait + Sync>(
    rt: &T,
    alloc: Global,
    workers: u32,
    buffers: u32,
    others: u32,
) -> Result<(bool, u32, u64), Fail>
    requires { workers + others ≤ 64 }
{
    let passed = AtomicU64::new(0);
    lead_over_array(rt, alloc, workers, buffers, others, &passed, &StartsAll)
}

#[test]
fn the_gate_is_told_before_references_are_asked_for(rt: HostRuntime) -> Result<(), Fail> {
    let seen = lead_at_once(&rt, rt.alloc(), 2, 1024, 0)?;
    assert_eq!(rt; seen, (true, 62, 0));
    Ok(())
}

#[test]
fn a_leader_without_buffers_drains(rt: HostRuntime) -> Result<(), Fail> {
    // Two others hold all four buffers, so that neither the worker nor the leader finds a pair.
    let seen = lead_at_once(&rt, rt.alloc(), 1, 4, 2)?;
    assert_eq!(rt; seen, (true, 62, 0));
    Ok(())
}

/// The least time that a worker waits for another, in milliseconds. Its naps add up to 300. If all were as short as the
/// first ones they would add up to 50, and to 130 with what the system adds to each. A busy machine only lengthens
/// them.
const LEAST_WAIT: u64 = 250;

/// Marks the wide array with two workers, of which only the first has a pair when the second is started.
fn lead_one_pair<T: Clock + Copy + Threads + Wait + Sync>(
    rt: T,
    alloc: Global,
) -> Result<(bool, u32, u64), Fail> {
    let passed = AtomicU64::new(0);
    let hook = AfterAScan {
        clock: rt,
        passed: &passed,
    };
    // Another worker holds two of the seven buffers, the leader two, and one has the root that the leader gives away.
    // The first worker holds two until it leaves, so the second finds no pair before, and does not go idle.
    lead_over_array(&rt, alloc, 2, 7, 1, &passed, &hook)
}

#[test]
fn a_worker_waits_long_for_one_without_a_pair(rt: HostRuntime) -> Result<(), Fail> {
    let start = Instant::now(&rt)?;
    let seen = lead_one_pair(rt, rt.alloc())?;
    let waits = start.elapsed(&rt)? >= Duration::from_millis(LEAST_WAIT);
    assert_eq!(rt; (seen, waits), ((true, 62, 0), true));
    Ok(())
}
