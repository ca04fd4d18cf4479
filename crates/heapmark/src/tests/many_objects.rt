//! Trees of many objects: runs with 1 and 4 workers count each object, and 4 workers share the work on them.
//!
//! `rt try --test` takes some minutes for this file: `--seconds 300` lets it end.

use super::dumps::{Bytes, TWO_OBJECTS};
use super::{run_with, runs_are_answered, usual};
use crate::{Causes, NoGate, Options, Skip};
use limited_heap::LimitedHeap;
use std::alloc::{AllocError, Global};
use std::sync::Wait;
use std::thread::{Threads, available_parallelism};

/// The number of nodes of a tree of 20 levels. With their class there are 2^20 objects.
const MANY: u32 = 1_048_575;

/// The fewest objects on which threads share the work.
const SHARED: u32 = 65_536;

/// The report of the tree of 20 levels.
const REPORT: &str = "   1048575         8388600  A
         1               0  <class>
   1048576         8388600  (reachable)
         0               0  (unreachable)
         0               0  (unresolved)
";

/// Returns the identifier of the node `number` of a tree of `nodes` nodes, or 0 if the tree has no node of this number.
fn id_of(number: u32, nodes: u32) -> u32 {
    if number <= nodes {
        number.wrapping_mul(8).wrapping_add(4096)
    } else {
        0
    }
}

/// Puts the node `number` into `heap`. Its two fields refer to the nodes 2 * `number` and 2 * `number` + 1, or are null
/// if the tree has no such nodes.
fn put_node(heap: &mut Bytes, number: u32, nodes: u32) -> Result<(), AllocError> {
    let left = number.wrapping_mul(2);
    heap.raw(&[0x21])?;
    heap.number(id_of(number, nodes))?;
    heap.raw(&[0, 0, 0, 0, 0, 0, 1, 0, 0, 0, 0, 8])?;
    heap.number(id_of(left, nodes))?;
    heap.number(id_of(left.wrapping_add(1), nodes))
}

/// Puts into `heap` the class, the nodes of a tree, and a root, which is the first node.
fn put_tree(heap: &mut Bytes, nodes: u32) -> Result<(), AllocError> {
    heap.sub(super::dumps::Sub::Class(0x100, 0, &[2, 2]))?;
    for number in 1..=nodes {
        put_node(heap, number, nodes)?;
    }
    heap.raw(&[0xff])?;
    heap.number(id_of(1, nodes))
}

/// Returns a dump of a tree of `nodes` nodes.
fn tree(alloc: Global, nodes: u32) -> Result<Bytes, AllocError> {
    let mut heap = Bytes::new(alloc, 4);
    put_tree(&mut heap, nodes)?;
    let mut dump = Bytes::dump(alloc, 4, &TWO_OBJECTS[..2])?;
    dump.record(0x0C, heap.bytes.as_slice())?;
    Ok(dump)
}

/// Tests whether runs with 1 and 4 workers on `bytes` write the report of the tree of 20 levels.
fn runs_are_reported<T: Causes + Threads + Wait + Sync>(
    rt: &T,
    alloc: Global,
    bytes: &[u8],
) -> bool {
    let options = [usual(1), usual(4)];
    runs_are_answered(
        rt,
        alloc,
        &options,
        &Skip::none(alloc),
        bytes,
        Ok(()),
        REPORT,
    )
}

/// Tests whether runs on the tree of 20 levels write its report.
fn tree_is_reported<T: Causes + Threads + Wait + Sync>(rt: &T, alloc: Global) -> bool {
    match tree(alloc, MANY) {
        Ok(dump) => runs_are_reported(rt, alloc, dump.bytes.as_slice()),
        Err(_) => false,
    }
}

#[test]
fn a_million_objects_are_counted(rt: HostRuntime) {
    assert!(rt; tree_is_reported(&rt, rt.alloc()));
}

/// Returns how many allocations a run with `options` on `bytes` makes, or `None` if the run is refused.
fn requests_on<T: Causes + Threads + Wait + Sync>(
    rt: &T,
    alloc: Global,
    options: &Options,
    bytes: &[u8],
) -> Option<u64> {
    let heap = LimitedHeap::new(alloc, u64::MAX);
    let (skip, written) = (Skip::none(alloc), Vec::new(alloc));
    let (outcome, _) = run_with(rt, &heap, options, &skip, &NoGate, bytes, written);
    match outcome {
        Ok(()) => Some(u64::MAX.wrapping_sub(heap.requests_left())),
        Err(_) => None,
    }
}

/// Returns how many allocations a run with `options` on a tree of `nodes` nodes makes, or `None` if the run is refused.
fn requests_on_tree<T: Causes + Threads + Wait + Sync>(
    rt: &T,
    alloc: Global,
    options: &Options,
    nodes: u32,
) -> Option<u64> {
    match tree(alloc, nodes) {
        Ok(dump) => requests_on(rt, alloc, options, dump.bytes.as_slice()),
        Err(_) => None,
    }
}

/// Returns how many more allocations a run on a tree of `SHARED` nodes makes than a run on a tree of a single node, or
/// `None` if it makes fewer or a run is refused.
fn requests_of_size<T: Causes + Threads + Wait + Sync>(
    rt: &T,
    alloc: Global,
    options: &Options,
) -> Option<u64> {
    let large = requests_on_tree(rt, alloc, options, SHARED)?;
    let small = requests_on_tree(rt, alloc, options, 1)?;
    large.checked_sub(small)
}

/// Work that is shared makes more allocations, since each part of it has lists of its own. With a single processor
/// nothing is shared.
#[test]
fn workers_share_the_work_before_the_marking(rt: HostRuntime) {
    let alone = requests_of_size(&rt, rt.alloc(), &usual(1));
    let shared = requests_of_size(&rt, rt.alloc(), &usual(4));
    let is_single = available_parallelism(&rt).is_ok_and(|processors| processors.get() == 1);
    assert!(rt;
        alone.is_some() && shared.is_some() && (shared > alone || is_single),
        "{alone:?} with 1 worker, {shared:?} with 4"
    );
}
