//! Out of memory: each allocation that it takes to read a dump and to build its graph fails in turn, once with all
//! later ones and once alone. The calls on a graph allocate nothing.

use crate::graphs::{build, count_objects, graph_of, is_worked, tells};
use crate::skipped::{REFERENTS, SKIPPED};
use crate::walks::{MANY, long_array};
use crate::worked::{CLASSES, REFERRING, ROOTED, Worked};
use heap_graph::{Graph, LinkFault, LinkRefusal, RowKey, Skip};
use hprof_grammar::Team;
use limited_heap::{LimitedHeap, requests_of};
use std::alloc::{AllocError, Allocator, Global};
use std::test::Fail;
use std::thread::Threads;
use test_dumps::Sub::{Class, Instance};
use test_dumps::{Bytes, Record};

/// Tests whether a team of four builds a graph on `heap`.
fn is_built<T: Threads + Sync>(
    rt: &T,
    heap: &LimitedHeap<Global>,
    bytes: &[u8],
    skip: &Skip<'_, Global>,
) -> bool {
    count_objects(&Team::new(rt, 4), heap, bytes, skip).is_ok()
}

/// Returns the number of allocations that a team of four makes to build a graph.
fn requests_to_build<T: Threads + Sync>(
    rt: &T,
    alloc: Global,
    bytes: &[u8],
    skip: &Skip<'_, Global>,
) -> u64 {
    let heap = LimitedHeap::new(alloc, u64::MAX);
    let _built = is_built(rt, &heap, bytes, skip);
    u64::MAX - heap.requests_left()
}

/// The expected result for a dump: a worked graph, or the code and the place of a fault.
#[derive(Drop)]
enum Wanted<'a> {
    Graph(&'a Worked),
    Fault(u8, u64),
}

/// Tests whether `graph` is what is `wanted`.
fn is_graph<A: Allocator>(wanted: &Wanted<'_>, graph: &Graph<'_, A>) -> bool {
    match wanted {
        Wanted::Graph(worked) => is_worked(graph, worked),
        Wanted::Fault(_, _) => false,
    }
}

/// Tests whether `refusal` is what is `wanted`, or is out of memory with `refusals` above 0.
fn is_refusal(wanted: &Wanted<'_>, refusal: LinkRefusal, refusals: u64) -> bool {
    match (refusal, wanted) {
        (LinkRefusal::Fault(LinkFault { code, offset }), Wanted::Fault(fault, place)) => {
            (code, offset) == (*fault, *place)
        }
        (LinkRefusal::Fault(_), Wanted::Graph(_)) => false,
        (LinkRefusal::OutOfMemory, _) => refusals > 0,
    }
}

/// Tests whether the result `built` is what is `wanted`, or is out of memory with `refusals` above 0.
fn is_wanted<A: Allocator>(
    wanted: &Wanted<'_>,
    built: &Result<Graph<'_, A>, LinkRefusal>,
    refusals: u64,
) -> bool {
    match built {
        Ok(graph) => is_graph(wanted, graph),
        Err(refusal) => is_refusal(wanted, *refusal, refusals),
    }
}

/// Tests whether the result of `build` on `heap` is what is `wanted`, or is out of memory after `heap` refused an
/// allocation.
fn comes<T: Threads + Sync>(
    rt: &T,
    heap: &LimitedHeap<Global>,
    bytes: &[u8],
    skip: &Skip<'_, Global>,
    wanted: &Wanted<'_>,
) -> bool {
    let built = build(&Team::new(rt, 4), heap, bytes, skip);
    let right = is_wanted(wanted, &built, heap.refusals());
    drop(built);
    right
}

/// Fails in turn each allocation that it takes to come to what is `wanted`. Returns the number of allocations, or
/// `None` if a result is wrong.
fn requests_until<T: Threads + Sync>(
    rt: &T,
    alloc: Global,
    bytes: &[u8],
    skip: &Skip<'_, Global>,
    wanted: &Wanted<'_>,
) -> Option<u64> {
    requests_of(alloc, |heap| comes(rt, heap, bytes, skip, wanted))
}

/// Fails each allocation in turn. Tests whether each result is right, and whether the allocations are just those that
/// build the graph: the calls on the graph make none.
fn is_right_in_turn<T: Threads + Sync>(
    rt: &T,
    alloc: Global,
    bytes: &[u8],
    worked: &Worked,
    skip: &Skip<'_, Global>,
) -> bool {
    let requests = requests_to_build(rt, alloc, bytes, skip);
    let wanted = Wanted::Graph(worked);
    requests > 0 && requests_until(rt, alloc, bytes, skip, &wanted) == Some(requests)
}

/// Like [`is_right_in_turn`], for the dump of `worked`.
fn is_right_of<T: Threads + Sync>(
    rt: &T,
    alloc: Global,
    worked: &Worked,
    skip: &Skip<'_, Global>,
) -> Result<bool, AllocError> {
    let file = Bytes::dump(alloc, worked.id_size, worked.records)?;
    Ok(is_right_in_turn(rt, alloc, &file.bytes, worked, skip))
}

/// Like [`is_right_of`], if all fields are followed.
fn is_right_whole<T: Threads + Sync>(
    rt: &T,
    alloc: Global,
    worked: &Worked,
) -> Result<bool, AllocError> {
    is_right_of(rt, alloc, worked, &Skip::none(alloc))
}

/// Like [`is_right_of`], if the fields of `list` are not followed.
fn is_right_without<T: Threads + Sync>(
    rt: &T,
    alloc: Global,
    worked: &Worked,
    list: &str,
) -> Result<bool, AllocError> {
    match Skip::new(alloc, list) {
        Ok(skip) => is_right_of(rt, alloc, worked, &skip),
        Err(_) => Ok(false),
    }
}

/// Returns the name of the first dump of `table` of which [`is_right_whole`] is false, or `None` if there is none.
fn first_wrong<T: Threads + Sync>(
    rt: &T,
    alloc: Global,
    table: &[Worked],
) -> Result<Option<&'static str>, AllocError> {
    for worked in table {
        if !is_right_whole(rt, alloc, worked)? {
            return Ok(Some(worked.name));
        }
    }
    Ok(None)
}

/// Like [`first_wrong`], for `ROOTED`.
fn first_wrong_rooted<T: Threads + Sync>(
    rt: &T,
    alloc: Global,
) -> Result<Option<&'static str>, AllocError> {
    first_wrong(rt, alloc, &ROOTED)
}

/// Like [`first_wrong`], for `CLASSES`.
fn first_wrong_class<T: Threads + Sync>(
    rt: &T,
    alloc: Global,
) -> Result<Option<&'static str>, AllocError> {
    first_wrong(rt, alloc, &CLASSES)
}

/// Like [`first_wrong`], for `REFERRING`.
fn first_wrong_referring<T: Threads + Sync>(
    rt: &T,
    alloc: Global,
) -> Result<Option<&'static str>, AllocError> {
    first_wrong(rt, alloc, &REFERRING)
}

#[test]
fn worked_graphs_or_out_of_memory(rt: HostRuntime) {
    let alloc = rt.alloc();
    for wrong in [
        first_wrong_rooted(&rt, alloc),
        first_wrong_class(&rt, alloc),
        first_wrong_referring(&rt, alloc),
    ] {
        assert_eq!(rt; wrong, Ok(None));
    }
}

/// Returns the name of the first dump of `table` of which [`is_right_without`] is false, or `None` if there is none.
fn first_wrong_without<T: Threads + Sync>(
    rt: &T,
    alloc: Global,
    table: &[(&str, Worked)],
) -> Result<Option<&'static str>, AllocError> {
    for (list, worked) in table {
        if !is_right_without(rt, alloc, worked, list)? {
            return Ok(Some(worked.name));
        }
    }
    Ok(None)
}

/// Like [`first_wrong_without`], for `REFERENTS`.
fn first_wrong_referent<T: Threads + Sync>(
    rt: &T,
    alloc: Global,
) -> Result<Option<&'static str>, AllocError> {
    first_wrong_without(rt, alloc, &REFERENTS)
}

/// Like [`first_wrong_without`], for `SKIPPED`.
fn first_wrong_skipped<T: Threads + Sync>(
    rt: &T,
    alloc: Global,
) -> Result<Option<&'static str>, AllocError> {
    first_wrong_without(rt, alloc, &SKIPPED)
}

#[test]
fn graphs_without_fields_or_out_of_memory(rt: HostRuntime) {
    let alloc = rt.alloc();
    for wrong in [
        first_wrong_referent(&rt, alloc),
        first_wrong_skipped(&rt, alloc),
    ] {
        assert_eq!(rt; wrong, Ok(None));
    }
}

/// An instance without the fields of its superclass.
static TOO_SHORT: [Record; 1] = [Record::Heap(&[
    Class(0x110, 0x100, &[8]),
    Class(0x100, 0, &[2]),
    Instance(0x201, 0x110, &[0; 4]),
])];

/// Like [`requests_until`], for the fault of `TOO_SHORT`.
fn requests_to_refuse_short<T: Threads + Sync>(
    rt: &T,
    alloc: Global,
) -> Result<Option<u64>, AllocError> {
    let file = Bytes::dump(alloc, 4, &TOO_SHORT)?;
    let skip = Skip::none(alloc);
    Ok(requests_until(rt, alloc, &file.bytes, &skip, &Wanted::Fault(13, 136)))
}

#[test]
fn a_fault_or_out_of_memory(rt: HostRuntime) -> Result<(), Fail> {
    let requests = requests_to_refuse_short(&rt, rt.alloc())?;
    assert!(rt; requests.is_some_and(|requests| requests > 4));
    Ok(())
}

/// Tests whether there is a graph, and has the array with `elements`, its row and its bytes.
fn tells_array<A: Allocator>(graph: Option<&Graph<'_, A>>, elements: &[u32]) -> bool {
    match graph {
        Some(graph) => tells(graph, 3, &(elements, RowKey::Class(0), 400_000, 0)),
        None => false,
    }
}

/// Tests whether the graph that is built on `heap` has the array with `elements`, its row and its bytes.
fn walks_over<T: Threads + Sync>(
    rt: &T,
    heap: &LimitedHeap<Global>,
    bytes: &[u8],
    skip: &Skip<'_, Global>,
    elements: &[u32],
) -> bool {
    let graph = graph_of(rt, heap, bytes, skip);
    let right = tells_array(graph.as_ref(), elements);
    drop(graph);
    right
}

/// Tests the walk over the array on a heap that grants just the allocations that it takes to build the graph. Returns
/// whether the walk is right, how many of the granted allocations remain, and how many allocations failed.
fn walked<T: Threads + Sync>(
    rt: &T,
    alloc: Global,
    bytes: &[u8],
    elements: &[u32],
) -> (bool, u64, u64) {
    let skip = Skip::none(alloc);
    let heap = LimitedHeap::new(alloc, requests_to_build(rt, alloc, bytes, &skip));
    let right = walks_over(rt, &heap, bytes, &skip, elements);
    (right, heap.requests_left(), heap.refusals())
}

/// Like [`walked`], for the long array.
fn walked_long<T: Threads + Sync>(rt: &T, alloc: Global) -> Result<(bool, u64, u64), AllocError> {
    let file = long_array(alloc)?;
    let mut elements = vec![in alloc; 2u32; MANY + 1]?;
    elements[0] = 0;
    Ok(walked(rt, alloc, &file.bytes, &elements))
}

#[test]
fn walking_a_long_array_takes_no_memory(rt: HostRuntime) {
    assert_eq!(rt; walked_long(&rt, rt.alloc()), Ok((true, 0, 0)));
}
