//! Allocations that fail: each allocation of a call fails in turn, first together with all later ones, then alone. The
//! call then still returns its whole result, as it can if a list asks again for less memory. Or the call reports that
//! memory was refused, and has written nothing.

ghost use Rattle.drain.specs.Marks.{IsMarkingOf};

use crate::graphs::graph_of;
use crate::reports::{TWO_OBJECTS, two_objects, writes};
use drain::{Marked, NoGate, Options, mark};
use heap_graph::{Graph, Skip};
use histogram::{Counted, OutOfMemory, ReaderRefusal, Report, WriteRefusal, rows, write_report};
use hprof_grammar::Team;
use limited_heap::{LimitedHeap, requests_of};
use std::alloc::Global;
use std::sync::Wait;
use std::thread::Threads;
use test_dumps::Bytes;

/// Tests whether `team` makes the right rows on `heap`, or is out of memory after `heap` refused an allocation.
fn rows_over<T: Threads + Sync>(
    team: &Team<'_, T>,
    alloc: Global,
    heap: &LimitedHeap<Global>,
    graph: &Graph<'_, Global>,
    marks: &Marked<Global>,
) -> bool
    requires { IsMarkingOf graph.now marks.now }
{
    match rows(team, heap, graph, marks) {
        Ok(report) => writes(alloc, &report, TWO_OBJECTS),
        Err(OutOfMemory) => heap.refusals() > 0,
    }
}

/// Fails in turn each allocation that `team` makes for the rows. Returns the number of allocations, or `None` if a
/// result is wrong.
fn requests_of_rows<T: Threads + Sync>(
    team: &Team<'_, T>,
    alloc: Global,
    graph: &Graph<'_, Global>,
    marks: &Marked<Global>,
) -> Option<u64>
    requires { IsMarkingOf graph.now marks.now }
{
    requests_of(
        alloc,
        move |heap| -> bool
            requires { IsMarkingOf graph.now marks.now }
        { rows_over(team, alloc, heap, graph, marks) },
    )
}

/// Like [`requests_of_rows`], for a team of two and a marking of `graph`.
fn rows_in_turn<T: Threads + Wait + Sync>(
    rt: &T,
    alloc: Global,
    graph: &Graph<'_, Global>,
) -> Option<u64> {
    let Ok(options) = Options::new(1, 2, 4, 0) else {
        return None;
    };
    let team = Team::new(rt, 2);
    match mark(rt, alloc, graph, &options, &NoGate) {
        Ok(marks) => requests_of_rows(&team, alloc, graph, &marks),
        Err(_) => None,
    }
}

/// Like [`rows_in_turn`], for the graph of the dump `bytes`. Returns `None` also if the dump is not accepted.
fn rows_of_dump<T: Threads + Wait + Sync>(rt: &T, alloc: Global, bytes: &[u8]) -> Option<u64> {
    let skip = Skip::none(alloc);
    let graph = graph_of(rt, alloc, bytes, &skip)?;
    let requests = rows_in_turn(rt, alloc, &graph);
    drop(graph);
    requests
}

/// Like [`rows_of_dump`], for the worked dump.
fn rows_of_two_objects<T: Threads + Wait + Sync>(rt: &T, alloc: Global) -> Option<u64> {
    match Bytes::dump(alloc, 4, test_dumps::TWO_OBJECTS) {
        Ok(dump) => rows_of_dump(rt, alloc, dump.bytes.as_slice()),
        Err(_) => None,
    }
}

#[test]
fn rows_or_out_of_memory(rt: HostRuntime) {
    let requests = rows_of_two_objects(&rt, rt.alloc());
    // The list of lines, and a name for each of two lines.
    assert_eq!(rt; requests, Some(3));
}

/// Tests whether `report`, that of two objects, is written right on `heap`, or whether nothing is written and no write
/// fails after `heap` refused an allocation.
fn writes_over(alloc: Global, heap: &LimitedHeap<Global>, report: &Report<Global>) -> bool {
    let mut writer = Counted::new(Vec::new(alloc));
    let outcome = write_report(heap, report, &mut writer);
    let told_none = writer.failures() == 0;
    let written = writer.into_inner();
    let right = match outcome {
        Ok(()) => written.as_slice() == TWO_OBJECTS.as_bytes(),
        Err(fault) => fault == WriteRefusal::OutOfMemory
            && written.is_empty()
            && heap.refusals() > 0,
    };
    told_none && right
}

/// Fails in turn each allocation that it takes to write the report of two objects. Returns the number of allocations,
/// or `None` if a result is wrong.
fn written_in_turn(alloc: Global) -> Option<u64> {
    match two_objects(alloc) {
        Ok(report) => requests_of(alloc, |heap| writes_over(alloc, heap, &report)),
        Err(_) => None,
    }
}

#[test]
fn nothing_is_written_if_an_allocation_fails(rt: HostRuntime) {
    let requests = written_in_turn(rt.alloc());
    assert!(rt; requests.is_some_and(|requests| requests > 0));
}

/// Tests whether `bytes` are read right on `heap`, up to `limit`, if `expected` bytes are expected, or whether memory
/// ran out after `heap` refused an allocation.
fn reads_over(heap: &LimitedHeap<Global>, bytes: &[u8], expected: usize, limit: usize) -> bool {
    let mut reader = Counted::of_size(bytes, expected);
    let outcome = reader.read_to_limit(heap, limit);
    let right = match outcome {
        Ok(read) => read.as_slice() == &bytes[..bytes.len().min(limit)],
        Err(fault) => fault == ReaderRefusal::OutOfMemory && heap.refusals() > 0,
    };
    reader.failures() == 0 && right
}

/// The number of bytes that are expected, the limit, and the number of allocations.
type Case = (usize, usize, u64);

/// Readings of four bytes.
const FEW: [Case; 3] = [
    (0, 9, 1),
    // The four bytes fill the room, and the read that finds the end needs more.
    (4, 9, 2),
    (5, 9, 1),
];

/// Readings of a block of 600,000 bytes.
const BLOCK: [Case; 3] = [(0, 1_000_000, 3), (600_000, 1_000_000, 2), (0, 300_000, 2)];

/// Tests whether the reading of `bytes` makes the allocations of `case`, and each result is right while they fail in
/// turn.
fn reads_in_turn(alloc: Global, bytes: &[u8], case: Case) -> bool {
    let (expected, limit, requests) = case;
    requests_of(alloc, |heap| reads_over(heap, bytes, expected, limit)) == Some(requests)
}

/// Like [`reads_in_turn`], for a block of 600,000 bytes.
fn reads_block_in_turn(alloc: Global, case: Case) -> bool {
    match vec![in alloc; 7u8; 600_000] {
        Ok(block) => reads_in_turn(alloc, block.as_slice(), case),
        Err(_) => false,
    }
}

#[test]
fn out_of_memory_is_no_read_fault(rt: HostRuntime) {
    for case in FEW {
        assert!(rt; reads_in_turn(rt.alloc(), b"heap", case), "{case:?}");
    }
    for case in BLOCK {
        assert!(rt; reads_block_in_turn(rt.alloc(), case), "{case:?}");
    }
}

/// Writes to a vector on `heap`, which grants no allocation. Tests whether the write fails and is counted once, and
/// whether nothing else asks for memory.
fn counts_over(heap: &LimitedHeap<Global>) -> bool {
    let mut writer = Counted::new(Vec::<u8, _>::new(heap));
    let before = (writer.failures(), heap.refusals());
    let is_refused = writer.write(b"heap").is_err();
    let after = (writer.failures(), heap.refusals());
    before == (0, 0) && is_refused && after == (1, 1) && writer.into_inner().is_empty()
}

#[test]
fn counting_takes_no_memory(rt: HostRuntime) {
    let heap = LimitedHeap::new(rt.alloc(), 0);
    assert!(rt; counts_over(&heap));
}
