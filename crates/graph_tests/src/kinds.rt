//! Visits by the kind of the object: where its identifiers are, and that its class is known without a look-up.

use crate::graphs::{dump_of, graph_of};
use heap_graph::{ByKind, Graph, IdSource, RowKey, Skip, Targets, Visit};
use std::alloc::{AllocError, Allocator, Global};
use std::test::Fail;
use std::thread::Threads;
use test_dumps::Sub::{Class, Instance, Objects, Values};
use test_dumps::{Bytes, Record};

/// An object of each kind.
const EACH_KIND: &[Record] = &[Record::Heap(&[
    Class(0x100, 0, &[2]),
    Instance(0x201, 0x100, &[0, 0, 2, 2]),
    Objects(0x202, 0x100, &[0x201, 0, 0x999]),
    Values(0x203, 8, 2, &[1, 2]),
])];

/// Where the identifiers of an object are.
#[derive(Clone, Copy, PartialEq, Eq)]
enum Kind {
    Nothing,
    Fields,
    Elements,
    Any,
}

/// The kind, the class if it is known, the objects that the rest of the walk yields, the row, the bytes, and the number
/// of unresolved identifiers.
type Parts = (Kind, Option<u32>, &'static [u32], RowKey, u64, u64);

/// The parts of each object's visit. For a class, only the kind is tested.
const PARTS: [Parts; 4] = [
    (Kind::Any, None, &[], RowKey::ClassObject, 0, 0),
    (Kind::Fields, Some(0), &[2], RowKey::Class(0), 4, 0),
    (Kind::Elements, Some(0), &[1], RowKey::Class(0), 12, 1),
    (Kind::Nothing, None, &[], RowKey::Primitive(8), 2, 0),
];

/// Tests whether `rest` yields exactly `objects`.
fn yields<A: Allocator, I: IdSource>(rest: &mut Targets<'_, A, I>, objects: &[u32]) -> bool {
    for object in objects {
        if rest.next() != Some(*object) {
            return false;
        }
    }
    rest.next().is_none()
}

/// Tests whether the walk `rest` has the row and the bytes of `wanted`, yields exactly the objects of `wanted`, and
/// counts the unresolved identifiers of `wanted`.
fn walks<A: Allocator, I: IdSource>(rest: Targets<'_, A, I>, wanted: &Parts) -> bool {
    let (_, _, objects, row, bytes, unresolved) = *wanted;
    let mut rest = rest;
    let told = rest.row() == row && rest.bytes() == bytes;
    told && yields(&mut rest, objects) && rest.unresolved() == unresolved
}

/// Tests whether `wanted` are the parts of `visit`.
fn are_parts<A: Allocator>(visit: Visit<'_, A>, wanted: &Parts) -> bool {
    let (kind, known, _, _, _, _) = *wanted;
    match visit.by_kind() {
        ByKind::Nothing(class, rest) => {
            walks(rest, wanted) && kind == Kind::Nothing && class == known
        }
        ByKind::Fields(class, rest) => {
            walks(rest, wanted) && kind == Kind::Fields && class == known
        }
        ByKind::Elements(class, rest) => {
            walks(rest, wanted) && kind == Kind::Elements && class == known
        }
        ByKind::Any => kind == Kind::Any,
    }
}

/// Tests whether there is a graph, it has `object`, and `wanted` are the parts of its visit.
fn visits<A: Allocator>(graph: Option<&Graph<'_, A>>, object: u32, wanted: &Parts) -> bool {
    match graph {
        Some(graph) => object < graph.len() && are_parts(graph.visit(object), wanted),
        None => false,
    }
}

/// Like [`visits`], for the graph of the dump `bytes`.
fn visits_in<T: Threads + Sync>(
    rt: &T,
    alloc: Global,
    bytes: &[u8],
    object: u32,
    wanted: &Parts,
) -> bool {
    let skip = Skip::none(alloc);
    let graph = graph_of(rt, alloc, bytes, &skip);
    let right = visits(graph.as_ref(), object, wanted);
    drop(graph);
    right
}

/// Like [`visits`], for the graph of `EACH_KIND`.
fn has_parts<T: Threads + Sync>(
    rt: &T,
    alloc: Global,
    object: u32,
    wanted: &Parts,
) -> Result<bool, AllocError> {
    let file = Bytes::dump(alloc, 4, EACH_KIND)?;
    Ok(visits_in(rt, alloc, &file.bytes, object, wanted))
}

/// The number of classes, each of which has an array.
const CLASSES: u32 = 32;

/// Returns `CLASSES` classes, and an array of each class.
fn arrays(alloc: Global) -> Result<Bytes, AllocError> {
    let mut heap = Bytes::new(alloc, 4);
    for class in 0..CLASSES {
        heap.sub(Class(0x1000 + u64::from(class) * 8, 0, &[]))?;
    }
    for array in 0..CLASSES {
        let class = 0x1000 + u64::from(array) * 8;
        heap.sub(Objects(0x2000 + u64::from(array) * 8, class, &[0x1000]))?;
    }
    Ok(heap)
}

/// Tests whether object `object` is an array of which a visit knows, without a look-up, that its class is object
/// `class`.
fn is_array_of<A: Allocator>(graph: &Graph<'_, A>, object: u32, class: u32) -> bool {
    if object >= graph.len() {
        return false;
    }
    match graph.visit(object).by_kind() {
        ByKind::Elements(known, _) => return known == Some(class),
        _ => return false,
    }
}

/// Tests whether visits in `graph` know the class of each array.
fn knows_classes<A: Allocator>(graph: &Graph<'_, A>) -> bool {
    (0..CLASSES).all(|class| is_array_of(graph, CLASSES + class, class))
}

/// Counts the classes of `graph` that are found by a guess.
fn count_guessed<A: Allocator>(graph: &Graph<'_, A>) -> usize {
    let mut guessed = 0usize;
    for class in 0..CLASSES.min(graph.classes()) {
        guessed = guessed.saturating_add(usize::from(graph.is_class_guessed(class)));
    }
    guessed
}

/// Returns the results of [`knows_classes`] and [`count_guessed`], or `None` if there is no graph.
fn known_of<A: Allocator>(graph: Option<&Graph<'_, A>>) -> Option<(bool, usize)> {
    let graph = graph?;
    Some((knows_classes(graph), count_guessed(graph)))
}

/// Like [`known_of`], for the graph of the dump `bytes`.
fn known_in<T: Threads + Sync>(rt: &T, alloc: Global, bytes: &[u8]) -> Option<(bool, usize)> {
    let skip = Skip::none(alloc);
    let graph = graph_of(rt, alloc, bytes, &skip);
    let known = known_of(graph.as_ref());
    drop(graph);
    known
}

/// Like [`known_in`], for a dump of [`arrays`].
fn known_and_guessed<T: Threads + Sync>(
    rt: &T,
    alloc: Global,
) -> Result<Option<(bool, usize)>, AllocError> {
    let heap = arrays(alloc)?;
    let file = dump_of(alloc, 4, &heap.bytes)?;
    Ok(known_in(rt, alloc, &file.bytes))
}

/// At least three of four classes are guessed. A class is guessed if no other class was noted after it at its place.
#[test]
fn classes_are_guessed(rt: HostRuntime) -> Result<(), Fail> {
    let told = known_and_guessed(&rt, rt.alloc())?;
    assert!(rt; told.is_some_and(|(_, guessed)| guessed >= 24), "{told:?}");
    Ok(())
}

#[test]
fn no_array_is_of_any_kind(rt: HostRuntime) -> Result<(), Fail> {
    let told = known_and_guessed(&rt, rt.alloc())?;
    assert!(rt; told.is_some_and(|(known, _)| known));
    Ok(())
}

#[test]
fn visits_by_kind(rt: HostRuntime) -> Result<(), Fail> {
    for (object, wanted) in PARTS.iter().enumerate() {
        let told = has_parts(&rt, rt.alloc(), object as u32, wanted)?;
        assert!(rt; told, "object {object}");
    }
    Ok(())
}
