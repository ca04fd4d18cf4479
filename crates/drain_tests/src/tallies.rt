//! What a marking says of rows and of identifiers that name no object, however many workers there are.

use crate::dumps::{dump_of, graph_of, put_class, wide_array};
use drain::{Marked, NoGate, Options, RunFault, mark};
use heap_graph::{Graph, RowKey, Skip};
use std::alloc::{AllocError, Global};
use std::process::Abort;
use std::sync::Wait;
use std::test::Fail;
use std::thread::Threads;

/// Appends class 0x100, two arrays of that class, of which the first is the root, and a boolean array of 3 elements.
/// Each of the two refers to the boolean array, and has one identifier that names no object.
fn put_two_missing(heap: &mut Vec<u8>) -> Result<(), AllocError> {
    put_class(heap)?;
    for id in 0..2u8 {
        heap.extend_from_slice(&[0x22, 0, 0, 2, id, 0, 0, 0, 0, 0, 0, 0, 2, 0, 0, 1, 0])?;
        heap.extend_from_slice(&[0, 0, 4, 0, 0, 0, 9, id])?;
    }
    heap.extend_from_slice(&[0x23, 0, 0, 4, 0, 0, 0, 0, 0, 0, 0, 0, 3, 4, 1, 0, 1])?;
    heap.extend_from_slice(&[0xff, 0, 0, 2, 0])
}

/// Returns a dump with the objects of [`put_two_missing`].
fn two_missing(alloc: Global) -> Result<Vec<u8>, AllocError> {
    let mut heap = Vec::new(alloc);
    put_two_missing(&mut heap)?;
    dump_of(alloc, heap.as_slice())
}

/// A row, the number of its marked objects, and their bytes.
type Row = (RowKey, (u64, u64));

/// Rows of the wide array. Its 60 identifiers have 4 bytes each, and the instances have no bytes.
static WIDE: [Row; 6] = [
    (RowKey::Class(0), (61, 240)),
    (RowKey::Class(1), (0, 0)),
    (RowKey::ClassObject, (1, 0)),
    (RowKey::Primitive(3), (0, 0)),
    (RowKey::Primitive(8), (0, 0)),
    (RowKey::Primitive(12), (0, 0)),
];

static MISSING: [Row; 5] = [
    (RowKey::Class(0), (1, 8)),
    (RowKey::ClassObject, (1, 0)),
    (RowKey::Primitive(3), (0, 0)),
    (RowKey::Primitive(4), (1, 3)),
    (RowKey::Primitive(12), (0, 0)),
];

/// Tests whether `marked` has the sums in `rows` and `unresolved` identifiers that name no object.
fn is_told(marked: &Marked<Global>, rows: &[Row], unresolved: u64) -> bool {
    for (row, sum) in rows {
        if marked.tally(row) != *sum {
            return false;
        }
    }
    marked.unresolved() == unresolved
}

/// Marks `graph` and tests its result against `rows` and `unresolved`.
fn graph_tells<T: Threads + Wait + Sync>(
    rt: &T,
    alloc: Global,
    graph: &Graph<'_, Global>,
    options: &Options,
    rows: &[Row],
    unresolved: u64,
) -> Result<bool, RunFault> {
    let marked = mark(rt, alloc, graph, options, &NoGate)?;
    Ok(is_told(&marked, rows, unresolved))
}

/// Marks the graph of `dump` with `workers` workers and tests the result against `rows` and `unresolved`.
fn tells<T: Threads + Wait + Sync>(
    rt: &T,
    alloc: Global,
    dump: &[u8],
    workers: u32,
    rows: &[Row],
    unresolved: u64,
) -> Result<bool, Fail> {
    let options = Options::new(workers, 2, 1024, 0)?;
    let skip = Skip::none(alloc);
    let graph = graph_of(rt, alloc, dump, &skip)?;
    let right = graph_tells(rt, alloc, &graph, &options, rows, unresolved);
    drop(graph);
    Ok(right?)
}

/// Checks the result of 1, 2 and 4 workers against `rows` and `unresolved`.
fn check<T: Abort + Threads + Wait + Sync>(
    rt: &T,
    alloc: Global,
    dump: &[u8],
    rows: &[Row],
    unresolved: u64,
) -> Result<(), Fail> {
    for workers in [1, 2, 4] {
        let right = tells(rt, alloc, dump, workers, rows, unresolved)?;
        assert!(rt; right, "{workers} workers");
    }
    Ok(())
}

#[test]
fn what_is_marked_is_told_by_rows(rt: HostRuntime) -> Result<(), Fail> {
    let wide = wide_array(rt.alloc())?;
    check(&rt, rt.alloc(), wide.as_slice(), &WIDE, 0)?;
    let missing = two_missing(rt.alloc())?;
    check(&rt, rt.alloc(), missing.as_slice(), &MISSING, 1)
}
