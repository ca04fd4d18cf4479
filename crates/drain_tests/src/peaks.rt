//! The most bytes that `mark` has in use at the same time. The numbers of the table follow from what is stored:
//!
//! - A word for each 32 objects and for each buffer, and 32 more. A pool copies them when it is opened, so they are in
//!   use twice until then.
//! - 48 bytes for each buffer, which are also in use twice until then, and 4 for each object that fits into it.
//! - For each worker 104 bytes in lists of threads and workers.
//! - A tally for each worker and for the leader: 16 bytes for each of ten rows.
//! - 4 bytes for each object in a spill list. The list doubles when it is full: while it moves, the old list and the
//!   new one are in use.

use crate::dumps::{array_of, graph_of};
use drain::{NoGate, Options, mark};
use heap_graph::{Graph, Skip};
use limited_heap::LimitedHeap;
use std::alloc::Global;
use std::sync::Wait;
use std::test::Fail;
use std::thread::Threads;

/// The numbers of workers, of objects in a buffer, and of buffers.
type Team = (u32, u32, u32);

/// The bytes of a tally of ten rows.
const TALLY: usize = 10 * 16;

/// The bytes for each worker, with its tally.
const WORKER: usize = 104 + TALLY;

/// A team, the number of instances that an array refers to, and the most bytes in use while they are marked.
///
/// Nothing is spilled in the first three cases, so the most is in use when the pool is opened. Then come spill lists
/// of 32 objects, 16,384 and 8,192 that grow to twice as many.
const CASES: [(Team, u32, usize); 8] = [
    (
        (1, 4096, 8),
        60,
        2 * 8 * (32 + 8 + 2) + 8 * (2 * 48 + 4 * 4096),
    ),
    (
        (1, 4096, 8),
        16_400,
        2 * 8 * (32 + 8 + 513) + 8 * (2 * 48 + 4 * 4096),
    ),
    (
        (4, 64, 1024),
        16_400,
        2 * 8 * (32 + 1024 + 513) + 1024 * (2 * 48 + 4 * 64),
    ),
    (
        (1, 2, 4),
        60,
        8 * (32 + 4 + 2) + 4 * (48 + 4 * 2) + WORKER + TALLY + 4 * (32 + 64),
    ),
    (
        (64, 2, 130),
        60,
        8 * (32 + 130 + 2) + 130 * (48 + 4 * 2) + 64 * WORKER + TALLY + 4 * (32 + 64),
    ),
    (
        (1, 2, 4),
        16_400,
        8 * (32 + 4 + 513) + 4 * (48 + 4 * 2) + WORKER + TALLY + 4 * (16_384 + 32_768),
    ),
    (
        (2, 64, 6),
        16_384,
        8 * (32 + 6 + 513) + 6 * (48 + 4 * 64) + 2 * WORKER + TALLY + 4 * (8_192 + 16_384),
    ),
    (
        (64, 2, 130),
        16_384,
        8 * (32 + 130 + 513) + 130 * (48 + 4 * 2) + 64 * WORKER + TALLY + 4 * (8_192 + 16_384),
    ),
];

/// Marks `graph` and returns the most bytes in use meanwhile. Returns `None` if not all `objects` objects are marked.
fn peak_of_graph<T: Threads + Wait + Sync>(
    rt: &T,
    alloc: Global,
    graph: &Graph<'_, Global>,
    options: &Options,
    objects: u64,
) -> Option<usize> {
    let heap = LimitedHeap::new(alloc, u64::MAX);
    let marked = mark(rt, &heap, graph, options, &NoGate).map(|marked| marked.len());
    match marked {
        Ok(marked) if marked == objects => Some(heap.usage().peak),
        _ => None,
    }
}

/// Like [`peak_of_graph`], for an array of `instances` instances.
fn peak_of_array<T: Threads + Wait + Sync>(
    rt: &T,
    alloc: Global,
    options: &Options,
    instances: u32,
) -> Result<Option<usize>, Fail> {
    let dump = array_of(alloc, instances)?;
    let skip = Skip::none(alloc);
    let graph = graph_of(rt, alloc, dump.as_slice(), &skip)?;
    let peak = peak_of_graph(rt, alloc, &graph, options, u64::from(instances) + 2);
    drop(graph);
    Ok(peak)
}

#[test]
fn memory_is_what_a_marking_stores(rt: HostRuntime) -> Result<(), Fail> {
    for ((workers, buffer, buffers), instances, most) in CASES {
        let options = Options::new(workers, buffer, buffers, 0)?;
        let peak = peak_of_array(&rt, rt.alloc(), &options, instances)?;
        let is_stored = peak.is_some_and(|bytes| bytes <= most);
        assert!(rt; is_stored, "{options:?}, {instances} instances: {peak:?}");
    }
    Ok(())
}
