//! The dumps that are marked, and their graphs.

use heap_graph::{Graph, Skip};
use hprof_grammar::{Team, read};
use std::alloc::{AllocError, Global};
use std::test::Fail;
use std::thread::Threads;

/// Appends class 0x100, which has no superclass, no constants and no fields, static or not.
pub(crate) fn put_class(heap: &mut Vec<u8>) -> Result<(), AllocError> {
    heap.extend_from_slice(&[0x20, 0, 0, 1, 0])?;
    heap.extend_from_slice(&[0; 38])
}

/// Appends an instance of class 0x100 with the identifier `id`.
pub(crate) fn put_instance(heap: &mut Vec<u8>, id: u32) -> Result<(), AllocError> {
    heap.push(0x21)?;
    heap.extend_from_slice(&id.to_be_bytes())?;
    heap.extend_from_slice(&[0, 0, 0, 0, 0, 0, 1, 0, 0, 0, 0, 0])
}

/// Appends the header of a dump and a heap record with the bytes of `heap`.
fn put_dump(dump: &mut Vec<u8>, heap: &[u8]) -> Result<(), AllocError> {
    dump.extend_from_slice(b"JAVA PROFILE 1.0.2\0\0\0\0\x04")?;
    dump.extend_from_slice(&[0; 8])?;
    dump.extend_from_slice(&[0x0c, 0, 0, 0, 0])?;
    let length = u32::try_from(heap.len()).unwrap_or(u32::MAX);
    dump.extend_from_slice(&length.to_be_bytes())?;
    dump.extend_from_slice(heap)
}

/// Returns a dump of one heap record with the bytes of `heap`.
pub(crate) fn dump_of(alloc: Global, heap: &[u8]) -> Result<Vec<u8>, AllocError> {
    let mut dump = Vec::new(alloc);
    put_dump(&mut dump, heap)?;
    Ok(dump)
}

/// Appends class 0x100, an array of that class, which is the root, and the `instances` instances that the array refers
/// to.
fn put_array_of(heap: &mut Vec<u8>, instances: u32) -> Result<(), AllocError> {
    put_class(heap)?;
    // Array 0x200 of that class.
    heap.extend_from_slice(&[0x22, 0, 0, 2, 0, 0, 0, 0, 0])?;
    heap.extend_from_slice(&instances.to_be_bytes())?;
    heap.extend_from_slice(&[0, 0, 1, 0])?;
    for number in 0..instances {
        heap.extend_from_slice(&number.wrapping_add(0x300).to_be_bytes())?;
    }
    for number in 0..instances {
        put_instance(heap, number.wrapping_add(0x300))?;
    }
    heap.extend_from_slice(&[0xff, 0, 0, 2, 0])
}

/// Returns a dump of a class, an array, which is the root, and the `instances` instances that the array refers to.
pub(crate) fn array_of(alloc: Global, instances: u32) -> Result<Vec<u8>, AllocError> {
    let mut heap = Vec::new(alloc);
    put_array_of(&mut heap, instances)?;
    dump_of(alloc, heap.as_slice())
}

/// Returns the dump of 62 objects that [`array_of`] makes of 60 instances.
pub(crate) fn wide_array(alloc: Global) -> Result<Vec<u8>, AllocError> {
    array_of(alloc, 60)
}

/// Returns the graph of `dump`, which has to be accepted.
// The callers end with `drop`, which is proved once. Without it each of them is checked together with all parts of a
// graph.
pub(crate) fn graph_of<'a, T: Threads + Sync>(
    rt: &T,
    alloc: Global,
    dump: &'a [u8],
    skip: &'a Skip<'_, Global>,
) -> Result<Graph<'a, Global>, Fail> {
    let team = Team::new(rt, 4);
    let places = read(&team, alloc, dump)?;
    Ok(Graph::build(&team, alloc, dump, places, skip)?)
}
