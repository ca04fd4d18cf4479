//! The graphs of worked dumps.

use crate::worked::{ClassRow, Object, Worked};
use heap_graph::{Graph, LinkRefusal, Skip, Successors, Visit};
use hprof_grammar::{Team, read};
use std::alloc::{AllocError, Allocator, Global};
use std::test::Fail;
use std::thread::Threads;
use test_dumps::Bytes;

/// Returns a dump whose only record is a heap dump of the sub-records `heap`.
pub fn dump_of(alloc: Global, id_size: u32, heap: &[u8]) -> Result<Bytes, AllocError> {
    let mut file = Bytes::header(alloc, id_size)?;
    file.record(0x0C, heap)?;
    Ok(file)
}

/// Reads the dump `bytes`, which is whole, on `reading`, and builds its graph on `heap`. Returns `OutOfMemory` also if
/// the dump is not read.
fn build_apart<'a, T: Threads + Sync, A: Allocator + Copy + Send + Sync>(
    team: &Team<'_, T>,
    reading: A,
    heap: A,
    bytes: &'a [u8],
    skip: &'a Skip<'_, Global>,
) -> Result<Graph<'a, A>, LinkRefusal> {
    match read(team, reading, bytes) {
        Ok(dump) => Graph::build(team, heap, bytes, dump, skip),
        Err(_) => Err(LinkRefusal::OutOfMemory),
    }
}

/// Like [`build_apart`], with `heap` for both.
pub fn build<'a, T: Threads + Sync, A: Allocator + Copy + Send + Sync>(
    team: &Team<'_, T>,
    heap: A,
    bytes: &'a [u8],
    skip: &'a Skip<'_, Global>,
) -> Result<Graph<'a, A>, LinkRefusal> {
    build_apart(team, heap, heap, bytes, skip)
}

/// Like [`build`], for a team of four. Returns `None` if no graph is built.
pub fn graph_of<'a, T: Threads + Sync, A: Allocator + Copy + Send + Sync>(
    rt: &T,
    heap: A,
    bytes: &'a [u8],
    skip: &'a Skip<'_, Global>,
) -> Option<Graph<'a, A>> {
    build(&Team::new(rt, 4), heap, bytes, skip).ok()
}

/// Returns the number of objects of the graph that was `built`.
fn len_of<A: Allocator>(built: &Result<Graph<'_, A>, LinkRefusal>) -> Result<u32, LinkRefusal> {
    match built {
        Ok(graph) => Ok(graph.len()),
        Err(refusal) => Err(*refusal),
    }
}

/// Like [`build_apart`], but returns only the number of objects of the graph.
pub fn count_apart<T: Threads + Sync, A: Allocator + Copy + Send + Sync>(
    team: &Team<'_, T>,
    reading: A,
    heap: A,
    bytes: &[u8],
    skip: &Skip<'_, Global>,
) -> Result<u32, LinkRefusal> {
    let built = build_apart(team, reading, heap, bytes, skip);
    let objects = len_of(&built);
    // `drop` is proved once. Without it, each function that lets a graph go is checked together with all parts of one.
    drop(built);
    objects
}

/// Like [`count_apart`], with `heap` for both.
pub fn count_objects<T: Threads + Sync, A: Allocator + Copy + Send + Sync>(
    team: &Team<'_, T>,
    heap: A,
    bytes: &[u8],
    skip: &Skip<'_, Global>,
) -> Result<u32, LinkRefusal> {
    count_apart(team, heap, heap, bytes, skip)
}

/// Like [`gives`], for a borrowed walk.
fn goes_through<A: Allocator>(walk: &mut Successors<'_, A>, objects: &[u32]) -> bool {
    for object in objects {
        let left = walk.left();
        if walk.next() != Some(*object) || walk.left() >= left {
            return false;
        }
    }
    walk.next().is_none() && walk.left() == 0 && walk.next().is_none()
}

/// Tests whether `walk` yields exactly `objects`, and whether fewer identifiers remain after each object, and none at
/// the end.
pub fn gives<A: Allocator>(walk: Successors<'_, A>, objects: &[u32]) -> bool {
    let mut walk = walk;
    goes_through(&mut walk, objects)
}

/// Tests whether `visit` yields exactly `objects`.
fn yields<A: Allocator>(visit: &mut Visit<'_, A>, objects: &[u32]) -> bool {
    for object in objects {
        if visit.next() != Some(*object) {
            return false;
        }
    }
    visit.next().is_none()
}

/// Tests whether `visit` has the row and the bytes of `wanted`, yields exactly the objects of `wanted`, and has then
/// counted as many identifiers that name no object.
fn visits<A: Allocator>(visit: Visit<'_, A>, wanted: &Object<'_>) -> bool {
    let mut visit = visit;
    let (row, bytes) = (visit.row(), visit.bytes());
    let yielded = yields(&mut visit, wanted.0);
    let unresolved = visit.unresolved();
    yielded && row == wanted.1 && bytes == wanted.2 && unresolved == wanted.3
}

/// Tests whether `graph` has `object`, and returns what is `wanted` of it: by a visit, by a walk, and by the calls for
/// one property.
pub fn tells<A: Allocator>(graph: &Graph<'_, A>, object: u32, wanted: &Object<'_>) -> bool {
    if object >= graph.len() {
        return false;
    }
    let (references, row, bytes, unresolved) = *wanted;
    graph.row_of(object) == row
        && graph.bytes_of(object) == bytes
        && graph.unresolved_of(object) == unresolved
        && gives(graph.successors(object), references)
        && visits(graph.visit(object), wanted)
}

/// Tests whether `objects` are the objects of `graph`.
fn tells_objects<A: Allocator>(graph: &Graph<'_, A>, objects: &[Object<'_>]) -> bool {
    for object in 0..graph.len() {
        let Some(wanted) = objects.get(object as usize) else {
            return false;
        };
        if !tells(graph, object, wanted) {
            return false;
        }
    }
    graph.len() as usize == objects.len()
}

/// Tests whether `graph` returns what is `wanted` of `class`.
fn tells_class<A: Allocator>(graph: &Graph<'_, A>, class: u32, wanted: &ClassRow) -> bool {
    class < graph.classes()
        && graph.class_id(class) == wanted.0
        && graph.class_text(class) == wanted.1
}

/// Tests whether `classes` are the classes of `graph`.
fn tells_classes<A: Allocator>(graph: &Graph<'_, A>, classes: &[ClassRow]) -> bool {
    for class in 0..graph.classes() {
        let Some(wanted) = classes.get(class as usize) else {
            return false;
        };
        if !tells_class(graph, class, wanted) {
            return false;
        }
    }
    graph.classes() as usize == classes.len()
}

/// Returns the number of identifiers other than 0 that `objects` hold and that name no object.
fn missing_of(objects: &[Object<'_>]) -> u64 {
    let mut missing = 0u64;
    for object in objects {
        missing = missing.saturating_add(object.3);
    }
    missing
}

/// Tests whether `graph` is that of `worked`.
pub fn is_worked<A: Allocator>(graph: &Graph<'_, A>, worked: &Worked) -> bool {
    let unresolved = graph
        .unresolved()
        .saturating_add(missing_of(worked.objects));
    graph.roots() == worked.roots
        && unresolved == worked.unresolved
        && tells_objects(graph, worked.objects)
        && tells_classes(graph, worked.classes)
}
