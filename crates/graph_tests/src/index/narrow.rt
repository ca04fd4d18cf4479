//! Makes an index of narrow entries, from a list of identifiers, as callers do.

ghost use Rattle.std.specs.Prelude.{IfOk, IfSome, length, ◌<◌, ◌^◌, ◌≡◌};

use super::beside::{answers_all, serves_or_refused};
use id_index::{IdIndex, LowBits, NarrowEntriesBuilder, UsedIds, are_close};
use limited_heap::{LimitedHeap, requests_of};
use std::alloc::{AllocError, Allocator, Global};
use std::sync::atomic::{AtomicU64, Ordering};
use std::test::Fail;
use std::thread::Threads;

/// Returns the least and the greatest of `ids`.
fn ends_of(ids: &[u64]) -> (u64, u64) {
    let (mut least, mut greatest) = (u64::MAX, 0);
    for id in ids {
        least = least.min(*id);
        greatest = greatest.max(*id);
    }
    (least, greatest)
}

/// Returns the index of narrow entries of objects with the identifiers `ids`, if their three lowest bits are `low` and
/// such entries serve, and `None` otherwise. Granules are noted in at most `parts` parts. `ends` are the least and the
/// greatest identifier of a sample: a granule far outside them is not noted, and then narrow entries do not serve.
fn narrow_between<T: Threads + Sync, A: Allocator + Copy>(
    rt: &T,
    alloc: A,
    ids: &[u64],
    low: u64,
    ends: (u64, u64),
    parts: usize,
) -> Result<Option<IdIndex<A>>, AllocError>
    requires low { low < 8 }
    requires few { length ids.now < 2 ^ 32 }
    ensures { IfOk result (λ found. IfSome found (λ index. index ≡ ids.now)) }
{
    let bits = LowBits { shift: 3, low };
    let (least, greatest) = ends;
    let count = ids.len() as u32;
    if !are_close(bits, least, greatest, count) {
        return Ok(None);
    }
    let mut granules = UsedIds::new(alloc, bits, least, greatest, count, parts)?;
    let id_of = |number: usize| -> u64
        requires { number < length ids.now }
    { ids[number] };
    granules.note_all(rt, &id_of);
    let mut builder = NarrowEntriesBuilder::new(alloc, bits, granules)?;
    for id in ids {
        if !builder.fits(*id) || !builder.push(*id) {
            return Ok(None);
        }
    }
    Ok(builder.finish())
}

/// Like [`narrow_between`], with the least and the greatest of `ids` as `ends`.
pub fn narrow_index<T: Threads + Sync, A: Allocator + Copy>(
    rt: &T,
    alloc: A,
    ids: &[u64],
    low: u64,
    parts: usize,
) -> Result<Option<IdIndex<A>>, AllocError>
    requires low { low < 8 }
    requires few { length ids.now < 2 ^ 32 }
    ensures { IfOk result (λ found. IfSome found (λ index. index ≡ ids.now)) }
{
    narrow_between(rt, alloc, ids, low, ends_of(ids), parts)
}

/// Lists of identifiers, and whether narrow entries serve. They serve if all identifiers have the three lowest bits 0,
/// no identifier is repeated, and there are on average at least two on each page (of 512 values) from the least to the
/// greatest.
const PAIRED: [(&[u64], bool); 14] = [
    (&[], false),
    (&[8], false),
    (&[16, 8], true),
    (&[8, 16], true),
    (&[8, 16, 8], false),
    (&[16, 16, 8, 8], false),
    (&[16, 8, 12], false),
    (&[512, 0, 520, 8], true),
    (&[1024, 0, 520, 8], false),
    (&[1024, 0, 520, 8, 1032, 16], true),
    (&[0xffff_ffff_ffff_fff8, 0xffff_ffff_ffff_fff0], true),
    (&[0xffff_ffff_ffff_fff8, 0], false),
    (&[0x7f00_0008, 0x7f00_01f8, 0x7f00_0000, 0x7f00_0200], true),
    (
        &[
            504, 0, 496, 8, 488, 16, 480, 24, 472, 32, 464, 40, 456, 48, 448, 56, 440, 64, 432, 72,
        ],
        true,
    ),
];

/// Makes the index of narrow entries of `ids` on `heap`, with granules in at most `parts` parts. Tests whether the
/// index agrees with a search one by one if `serves` is true, and is `None` if `serves` is false, or whether `heap`
/// refused an allocation.
fn is_right<T: Threads + Sync>(
    rt: &T,
    heap: &LimitedHeap<Global>,
    ids: &[u64],
    serves: bool,
    parts: usize,
) -> bool {
    if ids.len() > 1000 {
        return false;
    }
    serves_or_refused(&narrow_index(rt, heap, ids, 0, parts), heap, ids, serves)
}

/// All numbers of parts below this one are tried.
const PARTS: usize = 5;

/// Each allocation fails in turn. If an index is made even so, the index agrees with a search one by one. No index is
/// made if narrow entries do not serve. If they serve, an index takes two allocations, one for the entries and one for
/// the page words: the granules of all parts are noted in the room of the entries.
#[test]
fn narrow_as_one_by_one_or_out_of_memory(rt: HostRuntime) {
    for (ids, serves) in PAIRED {
        for parts in 0..PARTS {
            let requests = requests_of(rt.alloc(), |heap| is_right(&rt, heap, ids, serves, parts));
            let right = requests.is_some() && (!serves || requests == Some(2));
            assert!(rt; right, "{ids:?} in {parts} parts: {requests:?} allocations");
        }
    }
}

/// Returns how many identifiers are read to note the granules of `count` objects in at most `parts` parts. Object
/// `number` has the identifier `8 * number`.
fn ids_read<T: Threads + Sync>(
    rt: &T,
    alloc: Global,
    count: u32,
    parts: usize,
) -> Result<u64, AllocError> {
    let bits = LowBits { shift: 3, low: 0 };
    let greatest = 8 * (u64::from(count).max(1) - 1);
    let mut granules = UsedIds::new(alloc, bits, 0, greatest, count, parts)?;
    let read = AtomicU64::new(0);
    let id_of = |number: usize| -> u64 {
        read.fetch_add(1, Ordering::SeqCst);
        (number as u64).wrapping_mul(8)
    };
    granules.note_all(rt, &id_of);
    Ok(read.load(Ordering::SeqCst))
}

/// The parts share the objects: each identifier is read once.
#[test]
fn granules_are_noted_once(rt: HostRuntime) -> Result<(), Fail> {
    for count in [1, 2, 99, 1000] {
        for parts in 0..PARTS {
            let read = ids_read(&rt, rt.alloc(), count, parts)?;
            assert_eq!(rt; read, u64::from(count), "in {parts} parts");
        }
    }
    Ok(())
}

/// The number of pages of [`spread`].
const PAGES: u64 = 72;

/// Returns two identifiers on each of `PAGES` pages, in no order.
fn spread(alloc: Global) -> Result<Vec<u64>, AllocError> {
    let mut ids = Vec::new(alloc);
    for number in 0..2 * PAGES {
        // 55 and 144 have no common divisor.
        let half = number * 55 % (2 * PAGES);
        ids.push(half * 256)?;
    }
    Ok(ids)
}

/// Tests whether narrow entries serve for `ids` if their granules are noted between `ends`, and the index is as a
/// search one by one.
fn does_serve<T: Threads + Sync>(
    rt: &T,
    alloc: Global,
    ids: &[u64],
    ends: (u64, u64),
    parts: usize,
) -> Result<bool, AllocError> {
    if ids.len() > 1000 {
        return Ok(false);
    }
    match narrow_between(rt, alloc, ids, 0, ends, parts)? {
        Some(index) => Ok(answers_all(&index, ids)),
        None => Ok(false),
    }
}

/// The first and the last page of a sample of [`spread`], and whether the ends of the sample serve for all identifiers:
/// a sixteenth of the sample's pages is added on either side.
const SAMPLES: [(u64, u64, bool); 6] = [
    (0, 71, true),
    (4, 71, true),
    (4, 67, true),
    (5, 67, false),
    (4, 66, false),
    (40, 40, false),
];

#[test]
fn ends_of_a_sample_serve(rt: HostRuntime) -> Result<(), Fail> {
    let ids = spread(rt.alloc())?;
    for (first, last, serves) in SAMPLES {
        for parts in [1, 2, 64] {
            let ends = (first * 512, last * 512 + 256);
            let found = does_serve(&rt, rt.alloc(), &ids, ends, parts);
            assert_eq!(rt;
                found,
                Ok(serves),
                "pages {first} to {last} in {parts} parts"
            );
        }
    }
    Ok(())
}

/// The least and the greatest of identifiers at multiples of eight, and whether the pages from the one to the other
/// have at most 2^32 granules. In the last row the greatest comes first: then there are no such pages.
const ENDS: [(u64, u64, bool); 5] = [
    (0, (1 << 35) - 8, true),
    (0, 1 << 35, false),
    (504, (1 << 35) - 8, true),
    (512, 1 << 35, true),
    (1 << 35, 0, false),
];

#[test]
fn entries_span_as_many_granules_as_they_count(rt: HostRuntime) {
    let bits = LowBits { shift: 3, low: 0 };
    for (least, greatest, close) in ENDS {
        let found = are_close(bits, least, greatest, u32::MAX);
        assert_eq!(rt; found, close, "from {least} to {greatest}");
    }
}
