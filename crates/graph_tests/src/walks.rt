//! Walks over the identifiers that objects hold.

use crate::graphs::graph_of;
use crate::worked::{LOADERS, MISSING_FIRST, SELF_AND_MISSING, SUBCLASS_FIRST, WHOLE_CLASS};
use heap_graph::{Graph, Skip, Successors};
use std::alloc::{AllocError, Allocator, Global};
use std::test::Fail;
use std::thread::Threads;
use test_dumps::Sub::{Class, Instance, Root};
use test_dumps::{Bytes, Record, TWO_OBJECTS};

/// A walk over the identifiers that an object of a dump holds.
struct Walk {
    name: &'static str,
    id_size: u32,
    records: &'static [Record],
    object: u32,
    /// The numbers of remaining identifiers: at first, and after each call of `next` up to the first that returns
    /// `None`.
    left: &'static [u64],
}

static WALKS: [Walk; 7] = [
    Walk {
        name: "null, itself, and one that is missing",
        id_size: 8,
        records: SELF_AND_MISSING,
        object: 1,
        left: &[4, 3, 1, 0],
    },
    Walk {
        name: "an empty array",
        id_size: 8,
        records: SELF_AND_MISSING,
        object: 2,
        left: &[0, 0],
    },
    Walk {
        name: "its own field, which is no reference, and that of the superclass",
        id_size: 4,
        records: SUBCLASS_FIRST,
        object: 2,
        left: &[2, 1, 0, 0],
    },
    Walk {
        name: "a missing identifier before a good one, in an array",
        id_size: 4,
        records: MISSING_FIRST,
        object: 0,
        left: &[5, 4, 2, 0, 0],
    },
    Walk {
        name: "a missing identifier in static fields",
        id_size: 4,
        records: MISSING_FIRST,
        object: 3,
        left: &[5, 0],
    },
    Walk {
        name: "all that a class refers to",
        id_size: 4,
        records: WHOLE_CLASS,
        object: 0,
        left: &[8, 7, 6, 5, 4, 3, 1, 0, 0],
    },
    Walk {
        name: "a loader that is the class itself, and a missing identifier in a static field",
        id_size: 8,
        records: LOADERS,
        object: 1,
        left: &[5, 4, 3, 1, 0],
    },
];

/// Calls `next`. Returns the number of identifiers that remained before the call, and whether the call returned an
/// object.
fn next_of<A: Allocator>(walk: &mut Successors<'_, A>) -> (u64, bool) {
    (walk.left(), walk.next().is_some())
}

/// Calls `next` once for each number of `left`. Tests whether that many identifiers remain before the call, and whether
/// just the last two calls return `None`.
fn leaves<A: Allocator>(walk: Successors<'_, A>, left: &[u64]) -> bool {
    let mut walk = walk;
    let objects = left.len().saturating_sub(2);
    for (number, wanted) in left.iter().enumerate() {
        if next_of(&mut walk) != (*wanted, number < objects) {
            return false;
        }
    }
    true
}

/// Tests whether there is a graph, it has `object`, and the numbers of its remaining identifiers are `left`.
fn leaves_of<A: Allocator>(graph: Option<&Graph<'_, A>>, object: u32, left: &[u64]) -> bool {
    match graph {
        Some(graph) => object < graph.len() && leaves(graph.successors(object), left),
        None => false,
    }
}

/// Tests whether the graph of the dump `bytes` has `object`, and the numbers of its remaining identifiers are `left`.
fn leaves_in<T: Threads + Sync>(
    rt: &T,
    alloc: Global,
    bytes: &[u8],
    object: u32,
    left: &[u64],
) -> bool {
    let skip = Skip::none(alloc);
    let graph = graph_of(rt, alloc, bytes, &skip);
    let right = leaves_of(graph.as_ref(), object, left);
    drop(graph);
    right
}

/// Tests whether the numbers of remaining identifiers in the dump of `walk` are those of `walk`.
fn is_walk<T: Threads + Sync>(rt: &T, alloc: Global, walk: &Walk) -> Result<bool, AllocError> {
    let file = Bytes::dump(alloc, walk.id_size, walk.records)?;
    Ok(leaves_in(rt, alloc, &file.bytes, walk.object, walk.left))
}

/// Returns the name of the first of `walks` of which [`is_walk`] is false, or `None` if there is none.
fn first_wrong<T: Threads + Sync>(
    rt: &T,
    alloc: Global,
    walks: &[Walk],
) -> Result<Option<&'static str>, AllocError> {
    for walk in walks {
        if !is_walk(rt, alloc, walk)? {
            return Ok(Some(walk.name));
        }
    }
    Ok(None)
}

/// Like [`first_wrong`], for `WALKS`.
fn first_wrong_walk<T: Threads + Sync>(
    rt: &T,
    alloc: Global,
) -> Result<Option<&'static str>, AllocError> {
    first_wrong(rt, alloc, &WALKS)
}

#[test]
fn identifiers_left(rt: HostRuntime) {
    assert_eq!(rt; first_wrong_walk(&rt, rt.alloc()), Ok(None));
}

/// The number of elements of a long array.
pub const MANY: usize = 100_000;

/// Adds two instances, and an array with the second of them as each element.
fn add_long(alloc: Global, heap: &mut Bytes) -> Result<(), AllocError> {
    let elements = vec![in alloc; 0x202u64; MANY]?;
    heap.subs(&[
        Class(0x100, 0, &[2]),
        Instance(0x201, 0x100, &[0, 0, 2, 2]),
        Instance(0x202, 0x100, &[0, 0, 2, 1]),
    ])?;
    heap.objects(0x203, 0x100, elements.as_slice())?;
    heap.subs(&[Root(0x201), Root(0x203)])
}

/// Returns a dump with the long array.
pub fn long_array(alloc: Global) -> Result<Bytes, AllocError> {
    let mut heap = Bytes::new(alloc, 4);
    add_long(alloc, &mut heap)?;
    let mut file = Bytes::dump(alloc, 4, &TWO_OBJECTS[..2])?;
    file.record(0x0C, heap.bytes.as_slice())?;
    Ok(file)
}

/// Instances of class `T`, which declares a field of the same name as its superclass `java/lang/ref/Reference`.
pub const REFERENCES: &[Record] = &[
    Record::Text(1, b"java/lang/ref/Reference"),
    Record::Text(2, b"referent"),
    Record::Text(3, b"T"),
    Record::Load(0x100, 1),
    Record::Load(0x110, 3),
    Record::Heap(&[
        Class(0x100, 0, &[2]),
        Class(0x110, 0x100, &[2]),
        Instance(0x201, 0x110, &[0, 0, 2, 2, 0, 0, 2, 3]),
        Instance(0x202, 0x110, &[0; 8]),
        Instance(0x203, 0x110, &[0, 0, 0, 0, 0, 0, 9, 0x99]),
        Root(0x201),
    ]),
];

/// A list of fields that are not followed, the number of identifiers that object 0x201 holds, and the number of those
/// that object 0x203 holds and that name no object.
const SKIPS: [(&str, u64, u64); 3] = [
    ("T.other", 3, 1),
    ("T.referent", 2, 1),
    ("java/lang/ref/Reference.referent", 2, 0),
];

/// Tests whether object 0x201 holds `left` identifiers, and `unresolved` of those of object 0x203 name no object.
fn has_left<A: Allocator>(graph: Option<&Graph<'_, A>>, (left, unresolved): (u64, u64)) -> bool {
    let Some(graph) = graph else {
        return false;
    };
    if graph.len() != 5 {
        return false;
    }
    let held = graph.successors(2).left();
    held == left && graph.unresolved_of(4) == unresolved
}

/// Like [`has_left`], for the graph of the dump `bytes` if the fields of `skip` are not followed.
fn leaves_besides<T: Threads + Sync>(
    rt: &T,
    alloc: Global,
    bytes: &[u8],
    skip: &Skip<'_, Global>,
    wanted: (u64, u64),
) -> bool {
    let graph = graph_of(rt, alloc, bytes, skip);
    let right = has_left(graph.as_ref(), wanted);
    drop(graph);
    right
}

/// Like [`has_left`], for the graph of the dump `bytes` if the fields of `list` are not followed.
fn leaves_without<T: Threads + Sync>(
    rt: &T,
    alloc: Global,
    bytes: &[u8],
    list: &str,
    wanted: (u64, u64),
) -> bool {
    match Skip::new(alloc, list) {
        Ok(skip) => leaves_besides(rt, alloc, bytes, &skip, wanted),
        Err(_) => false,
    }
}

/// Like [`has_left`], for the graph of `REFERENCES` if the fields of `list` are not followed.
fn references_without<T: Threads + Sync>(
    rt: &T,
    alloc: Global,
    list: &str,
    wanted: (u64, u64),
) -> Result<bool, AllocError> {
    let file = Bytes::dump(alloc, 4, REFERENCES)?;
    Ok(leaves_without(rt, alloc, &file.bytes, list, wanted))
}

#[test]
fn fields_are_skipped(rt: HostRuntime) -> Result<(), Fail> {
    for (list, left, unresolved) in SKIPS {
        let skipped = references_without(&rt, rt.alloc(), list, (left, unresolved))?;
        assert!(rt; skipped, "{list}");
    }
    Ok(())
}
