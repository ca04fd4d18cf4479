//! Who calls the hook before a scan: each of many workers, the leader under a number of its own, and a worker to which
//! another gave objects.

use crate::dumps::{dump_of, graph_of, put_class, put_instance, wide_array};
use drain::inside::{StartHook, mark_where};
use drain::{Gate, Options, mark};
use heap_graph::{Graph, Skip};
use std::alloc::{AllocError, Global};
use std::sync::Wait;
use std::sync::atomic::{AtomicU64, Ordering};
use std::test::Fail;
use std::thread;
use std::thread::Threads;
use std::time::{Clock, Duration};

/// The most times that a held thread checks whether what it waits for has come, 1 ms apart.
const TURNS: u32 = 20_000;

/// Notes who calls. After the first `free` calls, holds each worker until all have come, or one was held in vain.
#[derive(Drop)]
struct Meeting<C: Clock> {
    clock: C,
    workers: u32,
    /// The number of calls that are let through at first.
    free: u64,
    calls: AtomicU64,
    /// A bit for each worker that came.
    come: AtomicU64,
    by_leader: AtomicU64,
    /// The number of calls that were held in vain: after the first one no further call is held.
    late: AtomicU64,
}

impl<C: Clock> Meeting<C> {
    fn new(clock: C, workers: u32, free: u64) -> Self {
        Meeting {
            clock,
            workers,
            free,
            calls: AtomicU64::new(0),
            come: AtomicU64::new(0),
            by_leader: AtomicU64::new(0),
            late: AtomicU64::new(0),
        }
    }

    fn is_over(&self) -> bool {
        self.come.load(Ordering::SeqCst).count_ones() == self.workers
            || self.late.load(Ordering::SeqCst) > 0
    }

    /// Waits until a call is held, and returns whether one was. On the wide array, the worker that makes it has given
    /// objects to others by then.
    fn sees_held(&self) -> bool {
        for _ in 0..TURNS {
            if self.calls.load(Ordering::SeqCst) > self.free {
                return true;
            }
            thread::sleep(&self.clock, Duration::from_millis(1));
        }
        false
    }

    fn hold(&self) {
        for _ in 0..TURNS {
            if self.is_over() {
                return;
            }
            thread::sleep(&self.clock, Duration::from_millis(1));
        }
        self.late.fetch_add(1, Ordering::SeqCst);
    }

    /// Returns the number of calls, the workers that came, and the number of the leader's calls.
    fn noted(&self) -> (u64, u64, u64) {
        (
            self.calls.load(Ordering::SeqCst),
            self.come.load(Ordering::SeqCst),
            self.by_leader.load(Ordering::SeqCst),
        )
    }
}

impl<C: Clock + Sync> Gate for Meeting<C> {
    fn before_scan(&self, worker: u32, _object: u32) {
        let before = self.calls.fetch_add(1, Ordering::SeqCst);
        if worker == self.workers {
            self.by_leader.fetch_add(1, Ordering::SeqCst);
            return;
        }
        self.come.fetch_or(1 << (worker % 64), Ordering::SeqCst);
        if before >= self.free {
            self.hold();
        }
    }
}

/// Starts every worker but the first only when a call is held, or refuses it if none is.
impl<C: Clock + Sync> StartHook for Meeting<C> {
    fn may_start(&self, worker: u32) -> bool {
        worker == 0 || self.sees_held()
    }
}

/// The identifier of the first root. The class has a lower one.
const FIRST_ROOT: u32 = 0x1000;

/// Appends `count` instances of one class, each of them a root.
fn put_roots(heap: &mut Vec<u8>, count: u32) -> Result<(), AllocError> {
    put_class(heap)?;
    for number in 0..count {
        let id = FIRST_ROOT.saturating_add(number);
        put_instance(heap, id)?;
        heap.push(0xff)?;
        heap.extend_from_slice(&id.to_be_bytes())?;
    }
    Ok(())
}

/// Returns a dump of `count` instances of one class, each of them a root.
fn roots_alone(alloc: Global, count: u32) -> Result<Vec<u8>, AllocError> {
    let mut heap = Vec::new(alloc);
    put_roots(&mut heap, count)?;
    dump_of(alloc, heap.as_slice())
}

/// Marks `graph` and returns the number of marked objects.
fn marked_in<T: Threads + Wait + Sync, G: Gate>(
    rt: &T,
    alloc: Global,
    graph: &Graph<'_, Global>,
    options: &Options,
    gate: &G,
) -> Result<u64, Fail> {
    let marked = mark(rt, alloc, graph, options, gate)?;
    Ok(marked.len())
}

/// Marks the graph of `dump` and returns the number of marked objects.
fn marked<T: Threads + Wait + Sync, G: Gate>(
    rt: &T,
    alloc: Global,
    dump: &[u8],
    options: &Options,
    gate: &G,
) -> Result<u64, Fail> {
    let skip = Skip::none(alloc);
    let graph = graph_of(rt, alloc, dump, &skip)?;
    let marked = marked_in(rt, alloc, &graph, options, gate);
    drop(graph);
    marked
}

/// Marks `roots` roots with the options `workers`, `buffer` and `buffers`. Returns the number of marked objects and
/// what the hook noted: the number of calls, the workers that came, and the number of the leader's calls.
fn calls_of<T: Clock + Copy + Threads + Wait + Sync>(
    rt: T,
    alloc: Global,
    roots: u32,
    (workers, buffer, buffers): (u32, u32, u32),
) -> Result<(u64, (u64, u64, u64)), Fail> {
    let options = Options::new(workers, buffer, buffers, 0)?;
    let gate = Meeting::new(rt, workers, 0);
    let dump = roots_alone(alloc, roots)?;
    let objects = marked(&rt, alloc, dump.as_slice(), &options, &gate)?;
    Ok((objects, gate.noted()))
}

/// Roots; workers, objects in a buffer, buffers; the workers that came; the number of the leader's calls.
static ROWS: [(u32, (u32, u32, u32), u64, u64); 4] = [
    // There is a buffer of two roots for each of 64 workers, and no worker scans before all have come.
    (128, (64, 2, 1024), u64::MAX, 0),
    // Each of four workers scans some of the many objects, and no worker scans before all have come.
    (3_000, (4, 2, 4096), 0xf, 0),
    (150_000, (4, 256, 1024), 0xf, 0),
    // Seven roots take all four buffers: the worker has no pair, and the leader scans all eight objects.
    (7, (1, 2, 4), 0, 8),
];

#[test]
fn workers_and_the_leader_have_their_numbers(rt: HostRuntime) -> Result<(), Fail> {
    for (roots, options, come, by_leader) in ROWS {
        let objects = u64::from(roots) + 1;
        let noted = calls_of(rt, rt.alloc(), roots, options)?;
        assert_eq!(rt;
            noted,
            (objects, (objects, come, by_leader)),
            "{roots} roots"
        );
    }
    Ok(())
}

/// Marks `graph` with `gate` as both hooks, and returns the number of marked objects.
fn met_in<T: Clock + Copy + Threads + Wait + Sync>(
    rt: T,
    alloc: Global,
    graph: &Graph<'_, Global>,
    options: &Options,
    gate: &Meeting<T>,
) -> Result<u64, Fail> {
    let marked = mark_where(&rt, alloc, graph, options, gate, gate)?;
    Ok(marked.len())
}

/// Marks the wide array with two workers, and returns the number of marked objects and which of the two came. Each call
/// but the first waits until both have come. The second worker is started when the first one waits.
fn come_to<T: Clock + Copy + Threads + Wait + Sync>(
    rt: T,
    alloc: Global,
) -> Result<(u64, u64), Fail> {
    // The first buffer of the worker that scans the array has room for all elements, so no put gives any away.
    let options = Options::new(2, 256, 1024, 0)?;
    let gate = Meeting::new(rt, 2, 1);
    let dump = wide_array(alloc)?;
    let skip = Skip::none(alloc);
    let graph = graph_of(&rt, alloc, dump.as_slice(), &skip)?;
    let objects = met_in(rt, alloc, &graph, &options, &gate);
    drop(graph);
    Ok((objects?, gate.come.load(Ordering::SeqCst)))
}

#[test]
fn a_worker_with_much_gives_to_one_with_nothing(rt: HostRuntime) -> Result<(), Fail> {
    let met = come_to(rt, rt.alloc())?;
    assert_eq!(rt; met, (62, 3));
    Ok(())
}
