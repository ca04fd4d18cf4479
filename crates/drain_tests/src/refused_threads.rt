//! A thread that cannot be started: this is reported, no later thread is started, and no started one remains.

use crate::dumps::{graph_of, wide_array};
use crate::faults::Fault;
use drain::inside::{StartHook, mark_where};
use drain::{Gate, NoGate, Options};
use heap_graph::{Graph, Skip};
use std::alloc::Global;
use std::sync::Wait;
use std::sync::atomic::{AtomicU64, Ordering};
use std::test::Fail;
use std::thread;
use std::thread::Threads;
use std::time::{Clock, Duration};

/// Refuses the thread of the worker with the number `refused`.
#[derive(Drop)]
struct AllBut {
    refused: u32,
}

impl StartHook for AllBut {
    fn may_start(&self, worker: u32) -> bool {
        worker != self.refused
    }
}

/// Marks `graph`, and returns the number of marked objects, or the fault.
fn marked_in<T: Threads + Wait + Sync, G: Gate, S: StartHook>(
    rt: &T,
    alloc: Global,
    graph: &Graph<'_, Global>,
    options: &Options,
    gate: &G,
    hook: &S,
) -> Result<u64, Fault> {
    match mark_where(rt, alloc, graph, options, gate, hook) {
        Ok(marked) => Ok(marked.len()),
        Err(fault) => Err(fault.into()),
    }
}

/// Marks the wide array with the options `workers`, `buffer`, `buffers` and `first_tag`. Returns the number of marked
/// objects, or the fault.
fn marked_where<T: Threads + Wait + Sync, G: Gate, S: StartHook>(
    rt: &T,
    alloc: Global,
    (workers, buffer, buffers, first_tag): (u32, u32, u32, u64),
    gate: &G,
    hook: &S,
) -> Result<Result<u64, Fault>, Fail> {
    let options = Options::new(workers, buffer, buffers, first_tag)?;
    let dump = wide_array(alloc)?;
    let skip = Skip::none(alloc);
    let graph = graph_of(rt, alloc, dump.as_slice(), &skip)?;
    let marked = marked_in(rt, alloc, &graph, &options, gate, hook);
    drop(graph);
    Ok(marked)
}

/// Workers, objects in a buffer, buffers, and the first tag; the worker whose thread is refused; and the result.
type Start = ((u32, u32, u32, u64), u32, Result<u64, Fault>);

/// The leader pops three empty buffers, two for its pair and one to replace the buffer that it gives away. Then the
/// empty stack has its last tag, and each worker is stopped when it opens a pair.
const LATE: u64 = Options::LAST_TAG - 3;

static STARTS: [Start; 9] = [
    ((4, 256, 1024, 0), 0, Err(Fault::WorkerRefused)),
    ((4, 256, 1024, 0), 1, Err(Fault::WorkerRefused)),
    ((4, 256, 1024, 0), 2, Err(Fault::WorkerRefused)),
    ((4, 256, 1024, 0), 3, Err(Fault::WorkerRefused)),
    ((4, 256, 1024, 0), 4, Ok(62)),
    // Six buffers of two have room for at most 12 of the 60 instances. The others go to the spill list of the worker
    // that claims them.
    ((2, 2, 6, 0), 2, Ok(62)),
    ((2, 256, 1024, LATE), 2, Err(Fault::TagSpent)),
    // Worker 0 is stopped as well, but worker 1 was not started.
    ((2, 256, 1024, LATE), 1, Err(Fault::WorkerRefused)),
    ((2, 256, 1024, LATE), 0, Err(Fault::WorkerRefused)),
];

#[test]
fn a_thread_that_cannot_be_started_is_told(rt: HostRuntime) -> Result<(), Fail> {
    for (options, refused, want) in STARTS {
        let outcome = marked_where(&rt, rt.alloc(), options, &NoGate, &AllBut { refused })?;
        assert_eq!(rt; outcome, want, "worker {refused}");
    }
    Ok(())
}

/// The workers for which the hook was called and those that scanned, with a bit for each, and the number of scans.
type Notes = (u64, u64, u64);

/// Notes for which workers the hook is called, and refuses the thread of worker 1. Notes which workers scan, and how
/// often; each scan takes at least 1 ms.
#[derive(Drop)]
struct RefusesOne<C: Clock> {
    clock: C,
    /// A bit for each worker.
    asked: AtomicU64,
    came: AtomicU64,
    scans: AtomicU64,
}

impl<C: Clock + Sync> StartHook for RefusesOne<C> {
    fn may_start(&self, worker: u32) -> bool {
        self.asked.fetch_or(1 << (worker % 64), Ordering::SeqCst);
        worker != 1
    }
}

impl<C: Clock + Sync> Gate for RefusesOne<C> {
    fn before_scan(&self, worker: u32, _object: u32) {
        self.came.fetch_or(1 << (worker % 64), Ordering::SeqCst);
        thread::sleep(&self.clock, Duration::from_millis(1));
        self.scans.fetch_add(1, Ordering::SeqCst);
    }
}

impl<C: Clock> RefusesOne<C> {
    fn new(clock: C) -> Self {
        RefusesOne {
            clock,
            asked: AtomicU64::new(0),
            came: AtomicU64::new(0),
            scans: AtomicU64::new(0),
        }
    }

    fn noted(&self) -> Notes {
        (
            self.asked.load(Ordering::SeqCst),
            self.came.load(Ordering::SeqCst),
            self.scans.load(Ordering::SeqCst),
        )
    }
}

/// Marks the wide array with four workers, of which the hook refuses worker 1. Returns the result, the notes at the
/// end, and the notes somewhat later.
fn noted_twice<T: Clock + Copy + Threads + Wait + Sync>(
    rt: T,
    alloc: Global,
) -> Result<(Result<u64, Fault>, Notes, Notes), Fail> {
    let one = RefusesOne::new(rt);
    let outcome = marked_where(&rt, alloc, (4, 256, 1024, 0), &one, &one)?;
    let first = one.noted();
    thread::sleep(&rt, Duration::from_millis(2));
    Ok((outcome, first, one.noted()))
}

#[test]
fn no_worker_is_started_behind_a_refused_one(rt: HostRuntime) -> Result<(), Fail> {
    let (outcome, first, later) = noted_twice(rt, rt.alloc())?;
    assert_eq!(rt; outcome, Err(Fault::WorkerRefused));
    // The hook was called for workers 0 and 1; only worker 0 scanned, and it scanned all 62 objects.
    assert_eq!(rt; first, (3, 1, 62));
    assert_eq!(rt; later, first, "no thread is left");
    Ok(())
}
