//! The most bytes that a run has in use at the same time besides those of its file, by the order of the objects and the
//! number of workers. No clause sees them. The bounds follow from what a run stores (`docs/PERFORMANCE.md`).

use super::dumps::{Bytes, Sub};
use super::least;
use crate::{Causes, Counted, NoGate, Options, Skip, run};
use limited_heap::LimitedHeap;
use std::alloc::{AllocError, Global};
use std::sync::Wait;
use std::test::Fail;
use std::thread::Threads;

/// The number of objects: a class and its instances. On so many, threads share the work. It is a power of two, so a
/// list that doubled is full.
const OBJECTS: usize = 65_536;

/// Returns a dump of `OBJECTS` objects, of which the class is a root. There are `OBJECTS` places, `apart` times 8 bytes
/// from one another. Each object is `step` places after the one before it, counted in a circle.
fn dump(alloc: Global, step: u64, apart: u64) -> Result<Bytes, AllocError> {
    let (first, mut heap) = (0x100_0000, Bytes::new(alloc, 8));
    heap.subs(&[Sub::Class(first, 0, &[]), Sub::Root(first)])?;
    for number in 1..OBJECTS as u64 {
        let place = number.wrapping_mul(step) % OBJECTS as u64;
        let id = place
            .wrapping_mul(apart)
            .wrapping_mul(8)
            .wrapping_add(first);
        heap.sub(Sub::Instance(id, first, &[]))?;
    }
    let mut file = Bytes::header(alloc, 8)?;
    file.record(0x0C, heap.bytes.as_slice())?;
    Ok(file)
}

/// Returns the most bytes in use besides `bytes` during a run on them, or `None` if the run is refused.
fn peak_of<T: Causes + Threads + Wait + Sync>(
    rt: &T,
    alloc: Global,
    options: &Options,
    bytes: &[u8],
) -> Option<usize> {
    let heap = LimitedHeap::new(alloc, u64::MAX);
    let mut reader = Counted::of_size(bytes, bytes.len().saturating_add(1));
    let mut writer = Counted::new(Vec::new(alloc));
    let skip = Skip::none(alloc);
    let outcome = run(rt, &heap, &mut reader, &mut writer, options, &skip, &NoGate);
    match outcome {
        Ok(()) => heap.usage().peak.checked_sub(bytes.len().saturating_add(1)),
        Err(_) => None,
    }
}

/// Like [`peak_of`], for a dump of objects in this order ([`dump`]).
fn peak_in<T: Causes + Threads + Wait + Sync>(
    rt: &T,
    alloc: Global,
    options: &Options,
    step: u64,
    apart: u64,
) -> Result<Option<usize>, AllocError> {
    let file = dump(alloc, step, apart)?;
    Ok(peak_of(rt, alloc, options, file.bytes.as_slice()))
}

/// The bytes for all that does not grow with the objects: a class, a root, tallies, buffers, and lists for threads.
const REST: usize = 4096;

/// Steps and distances of identifiers, and the most bytes, whatever the number of workers.
///
/// Each object takes 4 bytes for its place, and half as many again while the list of places doubles. In order, that is
/// the most: an index by extents takes less. Otherwise an object has a narrow entry of 8 bytes, with 12 bytes for each
/// page of 64 objects, or far from the others a wide one of 12 bytes and 1 for guesses. Then the most are in use while
/// the pool is made, with a quarter of a byte for each mark, twice.
const PEAKS: [(u64, u64, usize); 3] = [
    (1, 1, 6 * OBJECTS),
    (7919, 1, 12 * OBJECTS + 12 * OBJECTS / 64 + OBJECTS / 2),
    (7919, 1 << 20, 17 * OBJECTS + OBJECTS / 2),
];

#[test]
fn a_run_takes_few_bytes(rt: HostRuntime) -> Result<(), Fail> {
    for (step, apart, most) in PEAKS {
        for options in [least(1), least(4)] {
            let peak = peak_in(&rt, rt.alloc(), &options, step, apart)?;
            let is_few = peak.is_some_and(|bytes| bytes <= most + REST);
            assert!(rt; is_few, "step {step}, {apart} apart, {options:?}: {peak:?}");
        }
    }
    Ok(())
}
