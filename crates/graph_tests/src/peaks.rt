//! The most bytes that it takes at the same time to read a dump and to build its graph, by the order of its objects and
//! by the number of threads. No clause sees them. The bounds follow from what a graph has (the README of `id_index`,
//! and `docs/PERFORMANCE.md`).

use crate::graphs::{count_apart, dump_of};
use crate::unordered::dump;
use heap_graph::Skip;
use hprof_grammar::Team;
use limited_heap::LimitedHeap;
use std::alloc::{AllocError, Global};
use std::test::Fail;
use std::thread::Threads;
use test_dumps::Sub::Class;
use test_dumps::{Bytes, Order};

/// The number of objects of a dump. It is a power of two, so a list that doubled is full.
const OBJECTS: usize = 65_536;

/// The number of objects of a graph, and the most bytes at the same time while the dump was read, and without these
/// while the graph was built.
#[derive(Clone, Copy, Debug)]
struct Peaks {
    objects: u32,
    read: usize,
    built: usize,
}

/// Returns the peaks of a team of `threads` threads that reads the dump `bytes` and builds its graph, or `None` if no
/// graph is built.
fn peaks_of<T: Threads + Sync>(rt: &T, alloc: Global, threads: u32, bytes: &[u8]) -> Option<Peaks> {
    let reading = LimitedHeap::new(alloc, u64::MAX);
    let building = LimitedHeap::new(alloc, u64::MAX);
    let team = Team::sharing_from(rt, threads, 1);
    let skip = Skip::none(alloc);
    let objects = count_apart(&team, &reading, &building, bytes, &skip).ok()?;
    Some(Peaks {
        objects,
        read: reading.usage().peak,
        built: building.usage().peak,
    })
}

/// Tests whether `peak` is at most `bytes` and a tenth more.
fn is_near(peak: usize, bytes: usize) -> bool {
    peak <= bytes.saturating_add(bytes / 10)
}

/// Tests whether a graph of `objects` objects was built in at most `built` bytes, and its dump was read in at most 6
/// bytes an object: 4 for the object's place, and half as many again while the list of places doubles.
fn are_few(peaks: Option<Peaks>, objects: usize, built: usize) -> bool {
    let Some(peaks) = peaks else {
        return false;
    };
    peaks.objects as usize == objects
        && is_near(peaks.read, objects.saturating_mul(6))
        && is_near(peaks.built, built)
}

/// Like [`peaks_of`], for a dump of `OBJECTS` objects in `order`.
fn peaks_in<T: Threads + Sync>(
    rt: &T,
    alloc: Global,
    threads: u32,
    order: Order,
) -> Result<Option<Peaks>, AllocError> {
    let file = dump(alloc, order, OBJECTS as u32)?;
    Ok(peaks_of(rt, alloc, threads, &file.bytes))
}

/// The order of the objects, and the most bytes while a graph is built, with one thread and with four.
///
/// In order, 64 objects are an extent. It takes 24 bytes, and half as many again while the list of extents doubles.
/// Four threads have a list each. When the third of these is appended, two lists remain beside room for two and for
/// four: that of eight lists, or of two extents for each.
///
/// A narrow entry takes 8 bytes, and each page of 64 objects 12. A wide entry takes 12 bytes, and at most 1 for
/// guesses. Neither depends on the number of threads.
const PEAKS: [(Order, usize, usize); 4] = [
    (Order::Ascending, 36 * OBJECTS / 64, 48 * OBJECTS / 64),
    (Order::Close, NARROW, NARROW),
    (Order::Far, 13 * OBJECTS, 13 * OBJECTS),
    (Order::Unaligned, 13 * OBJECTS, 13 * OBJECTS),
];

/// The bytes of narrow entries if no page has a gap.
const NARROW: usize = 8 * OBJECTS + 12 * OBJECTS / 64;

#[test]
fn a_graph_takes_few_bytes(rt: HostRuntime) -> Result<(), Fail> {
    for (order, one, four) in PEAKS {
        for (threads, built) in [(1, one), (4, four)] {
            let peaks = peaks_in(&rt, rt.alloc(), threads, order)?;
            let few = are_few(peaks, OBJECTS, built);
            assert!(rt; few, "{order:?}, {threads} threads: {peaks:?}");
        }
    }
    Ok(())
}

/// The number of classes of a dump. It is a power of two, so a list that doubled is full.
const CLASSES: usize = 4096;

/// The bytes of a class: four buckets of 4 bytes for guesses, 44 in the map (identifier, place and size, a hash, an
/// index, and room for nine classes where there are eight), and 32 each for its fate, its plan, and its entry.
const CLASS: usize = 16 + 44 + 32 + 32 + 32;

/// Returns a dump of `CLASSES` classes.
fn class_dump(alloc: Global) -> Result<Bytes, AllocError> {
    let mut heap = Bytes::new(alloc, 8);
    for class in 0..CLASSES {
        heap.sub(Class(0x7f00_0000 + 8 * class as u64, 0, &[]))?;
    }
    dump_of(alloc, 8, &heap.bytes)
}

/// Like [`peaks_of`], for one thread and `CLASSES` classes.
fn peaks_of_classes<T: Threads + Sync>(rt: &T, alloc: Global) -> Result<Option<Peaks>, AllocError> {
    let file = class_dump(alloc)?;
    Ok(peaks_of(rt, alloc, 1, &file.bytes))
}

#[test]
fn a_class_takes_few_bytes(rt: HostRuntime) -> Result<(), Fail> {
    let peaks = peaks_of_classes(&rt, rt.alloc())?;
    let few = are_few(peaks, CLASSES, CLASS * CLASSES);
    assert!(rt; few, "{peaks:?}");
    Ok(())
}
