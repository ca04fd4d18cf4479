//! Which entries of a list name a field of a dump, and that each allocation may fail.

use heap_graph::Skip;
use hprof_grammar::{Team, read};
use limited_heap::{LimitedHeap, requests_of};
use std::alloc::{AllocError, Allocator, Global};
use std::test::Fail;
use std::thread::Threads;
use test_dumps::Record::{Heap, Load, Text};
use test_dumps::Sub::{Instance, Named, Root, Static};
use test_dumps::{Bytes, Record};

/// A class `S`, and two classes named `T` below it; a class `V` with a static field `f`; a class that is loaded again
/// as `U`, with a second string for its field's name; a class that is not loaded; and a class whose string is missing.
const CLASSES: &[Record] = &[
    Text(1, b"S"),
    Text(2, b"f"),
    Text(3, b"T"),
    Text(4, b"count"),
    Text(5, b"next"),
    Text(6, b"V"),
    Text(7, b"W"),
    Text(8, b"U"),
    Text(5, b"last"),
    Load(0x100, 1),
    Load(0x110, 3),
    Load(0x120, 3),
    Load(0x130, 6),
    Load(0x140, 7),
    Load(0x140, 8),
    Load(0x160, 99),
    Heap(&[
        Named(0x100, 0, &[(2, 2)]),
        Named(0x110, 0x100, &[(4, 10)]),
        Instance(0x201, 0x110, &[0, 0, 0, 7, 0, 0, 2, 1]),
        Named(0x120, 0x100, &[(99, 2), (5, 2)]),
        Static(0x130, 2, &[0, 0, 0, 0]),
        Named(0x140, 0, &[(5, 2)]),
        Named(0x150, 0, &[(2, 2)]),
        Named(0x160, 0, &[(2, 2)]),
        Root(0x201),
    ]),
];

/// Lists, and for each entry whether it is met.
static LISTS: [(&str, &[bool]); 7] = [
    ("S.f", &[true]),
    ("S.f,T.count,T.next", &[true, true, true]),
    ("T.f,T.count,S.count", &[false, true, false]),
    ("V.f,W.next,W.last,U.next", &[false, true, false, false]),
    (
        "X.f,S.g,S.ff,SS.f,s.f",
        &[false, false, false, false, false],
    ),
    ("f.S,T.T,f.f", &[false, false, false]),
    ("T.count,T.f,T.count", &[true, false, true]),
];

/// Tests whether the entries of `list` are met by the dump `bytes` as in `want`. Returns `None` if the list or the dump
/// is not read on `heap`, or if there is no memory for the answer.
fn is_met<T: Threads + Sync, A: Allocator + Copy + Send + Sync>(
    rt: &T,
    heap: A,
    bytes: &[u8],
    list: &str,
    want: &[bool],
) -> Option<bool> {
    let skip = Skip::new(heap, list).ok()?;
    let dump = read(&Team::new(rt, 4), heap, bytes).ok()?;
    let met = skip.met(heap, bytes, &dump).ok()?;
    Some(met.as_slice() == want)
}

/// Tests whether the entries of `list` are met by `CLASSES` as in `want`.
fn is_met_by_classes<T: Threads + Sync>(rt: &T, alloc: Global, list: &str, want: &[bool]) -> bool {
    match Bytes::dump(alloc, 4, CLASSES) {
        Ok(dump) => is_met(rt, alloc, dump.bytes.as_slice(), list, want) == Some(true),
        Err(_) => false,
    }
}

#[test]
fn entries_are_met(rt: HostRuntime) {
    for (list, want) in &LISTS {
        assert!(rt; is_met_by_classes(&rt, rt.alloc(), list, want), "{list}");
    }
}

/// Tests whether the entries of `list` are met by the dump `bytes` as in `want` if all is read on `heap`, or whether
/// memory ran out after `heap` refused an allocation.
fn is_answered<T: Threads + Sync>(
    rt: &T,
    heap: &LimitedHeap<Global>,
    bytes: &[u8],
    list: &str,
    want: &[bool],
) -> bool {
    match is_met(rt, heap, bytes, list, want) {
        Some(met) => met,
        None => heap.refusals() > 0,
    }
}

/// Fails in turn each allocation that it takes to read `list` and `CLASSES` and to find the entries that are met.
/// Returns the number of allocations, or `None` if a result is wrong.
fn requests_to_answer<T: Threads + Sync>(
    rt: &T,
    alloc: Global,
    list: &str,
    want: &[bool],
) -> Result<Option<u64>, AllocError> {
    let dump = Bytes::dump(alloc, 4, CLASSES)?;
    let bytes = dump.bytes.as_slice();
    Ok(requests_of(alloc, |heap| is_answered(rt, heap, bytes, list, want)))
}

#[test]
fn memory_refused_while_entries_are_met(rt: HostRuntime) -> Result<(), Fail> {
    let requests = requests_to_answer(&rt, rt.alloc(), "T.count,T.f", &[true, false])?;
    assert!(rt; requests.is_some());
    Ok(())
}
