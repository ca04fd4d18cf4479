//! What identifiers name: those that an object holds, those of the roots, and any other.

use crate::graphs::graph_of;
use crate::worked::MISSING_FIRST;
use heap_graph::{Graph, Skip, root_names};
use hprof_grammar::{Team, read};
use std::alloc::{AllocError, Allocator, Global};
use std::test::Fail;
use std::thread::Threads;
use test_dumps::{Bytes, Record, TWO_OBJECTS};

/// An object of a dump, and what its identifiers name.
struct Row {
    records: &'static [Record],
    object: u32,
    named: &'static [Option<u32>],
}

static ROWS: [Row; 3] = [
    Row {
        records: TWO_OBJECTS,
        object: 0,
        named: &[None, None, None, None],
    },
    Row {
        records: TWO_OBJECTS,
        object: 2,
        named: &[Some(0), Some(1)],
    },
    Row {
        records: MISSING_FIRST,
        object: 0,
        named: &[Some(2), None, Some(1), None, Some(0)],
    },
];

/// Tests whether the identifiers of `object` name `wanted`, one for each.
fn names<A: Allocator>(graph: &Graph<'_, A>, object: u32, wanted: &[Option<u32>]) -> bool {
    if object >= graph.len() {
        return false;
    }
    let mut named = graph.visit(object).named();
    for object in wanted {
        if named.next() != Some(*object) {
            return false;
        }
    }
    named.next().is_none()
}

/// Like [`names`], for the graph of the dump `bytes`.
fn names_in<T: Threads + Sync>(rt: &T, alloc: Global, bytes: &[u8], row: &Row) -> bool {
    let skip = Skip::none(alloc);
    let Some(graph) = graph_of(rt, alloc, bytes, &skip) else {
        return false;
    };
    let right = names(&graph, row.object, row.named);
    drop(graph);
    right
}

/// Like [`names_in`], for the dump of `row`.
fn names_row<T: Threads + Sync>(rt: &T, alloc: Global, row: &Row) -> Result<bool, AllocError> {
    let file = Bytes::dump(alloc, 4, row.records)?;
    Ok(names_in(rt, alloc, &file.bytes, row))
}

#[test]
fn identifiers_name(rt: HostRuntime) -> Result<(), Fail> {
    for row in &ROWS {
        let right = names_row(&rt, rt.alloc(), row)?;
        assert!(rt; right, "object {}", row.object);
    }
    Ok(())
}

/// Returns what `ids` name in the graph of the dump `bytes`, or `None` if there is no graph.
fn found_in<T: Threads + Sync>(
    rt: &T,
    alloc: Global,
    bytes: &[u8],
    ids: [u64; 4],
) -> Option<[Option<u32>; 4]> {
    let skip = Skip::none(alloc);
    let graph = graph_of(rt, alloc, bytes, &skip)?;
    let found = ids.map(|id| graph.find(id));
    drop(graph);
    Some(found)
}

#[test]
fn an_identifier_is_found(rt: HostRuntime) -> Result<(), Fail> {
    let file = Bytes::dump(rt.alloc(), 4, TWO_OBJECTS)?;
    let found = found_in(&rt, rt.alloc(), &file.bytes, [0, 0x100, 0x202, 0x203]);
    assert_eq!(rt; found, Some([None, Some(0), Some(2), None]));
    Ok(())
}

/// Returns the identifiers of the roots of the dump `bytes`, or `None` if it is no dump.
fn roots_of<T: Threads + Sync>(rt: &T, alloc: Global, bytes: &[u8]) -> Option<Vec<u64>> {
    let dump = read(&Team::new(rt, 1), alloc, bytes).ok()?;
    root_names(alloc, bytes, &dump).ok()
}

#[test]
fn roots_have_names(rt: HostRuntime) -> Result<(), Fail> {
    let file = Bytes::dump(rt.alloc(), 4, TWO_OBJECTS)?;
    let names = roots_of(&rt, rt.alloc(), &file.bytes).ok_or("no dump")?;
    assert_eq!(rt; names.as_slice(), [0x201].as_slice());
    Ok(())
}
