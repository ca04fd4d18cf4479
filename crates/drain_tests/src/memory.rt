//! Out of memory: if an allocation before the first start fails, no thread is started. The calls of a `Marked` allocate
//! nothing.

use crate::dumps::{graph_of, wide_array};
use drain::inside::{StartHook, mark_where};
use drain::{Gate, Marked, NoGate, Options, RunFault, mark};
use heap_graph::{Graph, RowKey, Skip};
use limited_heap::{LimitedHeap, requests_of};
use std::alloc::{Allocator, Global};
use std::sync::Wait;
use std::sync::atomic::{AtomicU64, Ordering};
use std::test::Fail;
use std::thread::Threads;

/// Returns the options for two workers, with room in the buffers for all that one of them finds: no spill list has to
/// grow.
fn with_room() -> Result<Options, Fail> {
    Ok(Options::new(2, 64, 6, 0)?)
}

/// Counts the calls of the two hooks: before a scan, and before the start of a thread.
#[derive(Drop)]
struct Calls {
    scans: AtomicU64,
    starts: AtomicU64,
}

impl Calls {
    fn none() -> Calls {
        Calls {
            scans: AtomicU64::new(0),
            starts: AtomicU64::new(0),
        }
    }

    fn made(&self) -> (u64, u64) {
        (
            self.scans.load(Ordering::SeqCst),
            self.starts.load(Ordering::SeqCst),
        )
    }
}

impl Gate for Calls {
    fn before_scan(&self, _worker: u32, _object: u32) {
        self.scans.fetch_add(1, Ordering::SeqCst);
    }
}

impl StartHook for Calls {
    fn may_start(&self, _worker: u32) -> bool {
        self.starts.fetch_add(1, Ordering::SeqCst);
        true
    }
}

/// Marks `graph` on `heap`. Tests whether the result is right: all 62 objects are scanned and both workers started; or,
/// if an allocation failed, the marking is out of memory, and neither hook was called.
fn marks_over<T: Threads + Wait + Sync>(
    rt: &T,
    heap: &LimitedHeap<Global>,
    graph: &Graph<'_, Global>,
    options: &Options,
) -> bool {
    let calls = Calls::none();
    let marked = mark_where(rt, heap, graph, options, &calls, &calls).map(|marked| marked.len());
    match marked {
        Ok(objects) => objects == 62 && calls.made() == (62, 2),
        Err(fault) => heap.refusals() > 0
            && fault == RunFault::OutOfMemory
            && calls.made() == (0, 0),
    }
}

/// Fails each allocation of marking `graph` in turn. Returns the number of allocations, or `None` if a result is wrong
/// or the number varies.
fn requests_to_mark<T: Threads + Wait + Sync>(
    rt: &T,
    alloc: Global,
    graph: &Graph<'_, Global>,
    options: &Options,
) -> Option<u64> {
    requests_of(alloc, |heap| marks_over(rt, heap, graph, options))
}

/// Returns the result of [`requests_to_mark`] for the wide array.
fn requests_to_mark_array<T: Threads + Wait + Sync>(
    rt: &T,
    alloc: Global,
) -> Result<Option<u64>, Fail> {
    let options = with_room()?;
    let dump = wide_array(alloc)?;
    let skip = Skip::none(alloc);
    let graph = graph_of(rt, alloc, dump.as_slice(), &skip)?;
    let requests = requests_to_mark(rt, alloc, &graph, &options);
    drop(graph);
    Ok(requests)
}

#[test]
fn no_thread_is_started_if_an_allocation_fails(rt: HostRuntime) -> Result<(), Fail> {
    let requests = requests_to_mark_array(&rt, rt.alloc())?;
    // The words, the slots, six buffers, two blocks of the table, the list of threads, that of returned workers, that
    // of tallies, and three tallies.
    assert_eq!(rt; requests, Some(16));
    Ok(())
}

/// What a marking of the wide array says: whether its first object and the one after the last are marked, the number of
/// marked objects, the instances with their bytes, and the number of identifiers that name no object.
type Told = (bool, bool, u64, (u64, u64), u64);

fn told<A: Allocator>(marked: &Marked<A>) -> Told {
    (
        marked.is_marked(0),
        marked.is_marked(62),
        marked.len(),
        marked.tally(&RowKey::Class(0)),
        marked.unresolved(),
    )
}

/// Marks `graph` on a heap that grants `requests` allocations. Returns the number of allocations that remain after the
/// marking, what the marking says, and the number of allocations that failed by the end.
fn told_with<T: Threads + Wait + Sync>(
    rt: &T,
    alloc: Global,
    graph: &Graph<'_, Global>,
    options: &Options,
    requests: u64,
) -> Result<(u64, Told, u64), RunFault> {
    let heap = LimitedHeap::new(alloc, requests);
    let marked = mark(rt, &heap, graph, options, &NoGate)?;
    let left = heap.requests_left();
    let told = told(&marked);
    Ok((left, told, heap.refusals()))
}

/// Marks the wide array on a heap that grants just as many allocations as the marking takes. Returns the result of
/// [`told_with`].
fn array_told<T: Threads + Wait + Sync>(
    rt: &T,
    alloc: Global,
) -> Result<Result<(u64, Told, u64), RunFault>, Fail> {
    let options = with_room()?;
    let dump = wide_array(alloc)?;
    let skip = Skip::none(alloc);
    let graph = graph_of(rt, alloc, dump.as_slice(), &skip)?;
    let requests = requests_to_mark(rt, alloc, &graph, &options).unwrap_or(0);
    let told = told_with(rt, alloc, &graph, &options, requests);
    drop(graph);
    Ok(told)
}

#[test]
fn a_marked_graph_allocates_nothing(rt: HostRuntime) -> Result<(), Fail> {
    let told = array_told(&rt, rt.alloc())?;
    assert_eq!(rt; told, Ok((0, (true, false, 62, (61, 240), 0), 0)));
    Ok(())
}
