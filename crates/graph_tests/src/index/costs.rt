//! What an index costs: the most bytes while it is made, and how many extents or entries its look-ups read. Time and
//! memory rest on these numbers, and no clause sees them. The bounds follow from the form of the index (the README of
//! `id_index`).

use super::making::index_of;
use super::narrow::narrow_index;
use super::wide::wide_index;
use id_index::IdIndex;
use limited_heap::LimitedHeap;
use std::alloc::{AllocError, Allocator, Global};
use std::test::Fail;
use std::thread::Threads;
use test_dumps::Order;

/// The number of identifiers of a list. Like the number of their extents it is a power of two, so a list of extents
/// that doubled is full.
const MANY: usize = 16_384;

/// The most steps that halve `MANY` entries until none remains.
const HALVING: usize = 15;

/// The most extents that a look-up reads if its bucket has at most 64: two for the guess, two to find the first extent
/// of the page, and the 64 of a page.
const NEAR: usize = 2 + 2 + 64;

/// The most extents that a look-up reads if all `MANY` are in one bucket: two for the guess, two around it, eight that
/// halve `MANY` to 64, 66 to go through those, and the 64 of a page.
const CROWDED: usize = 2 + 2 + 8 + 66 + 64;

/// The most narrow entries that a look-up reads: one for the guess, and those of a search by halving.
const NARROW: usize = 1 + HALVING;

/// The most wide entries that a look-up reads: two beside the guessed ends, those of a search by halving between all
/// entries, and the one that is found.
const WIDE: usize = 2 + HALVING + 1;

/// The bytes of narrow entries and of their pages, if each page has 64 objects.
const DENSE: usize = 8 * MANY + 12 * MANY / 64;

/// A form of an index, for `Narrow` with the largest number of parts in which granules are noted.
#[derive(Clone, Copy)]
enum Form {
    Extents,
    Narrow(usize),
    Wide,
}

/// Returns `MANY` identifiers in `order`. From one place to the next one there are `apart` granules.
fn ids_in(alloc: Global, order: Order, apart: u64) -> Result<Vec<u64>, AllocError> {
    let mut ids = Vec::with_capacity(alloc, MANY)?;
    for number in 0..MANY as u64 {
        ids.push(order.id_of(number, MANY as u64, 0x7f00_0000, apart.wrapping_mul(8)))?;
    }
    Ok(ids)
}

/// What an index costs.
#[derive(Clone, Copy, Debug)]
struct Cost {
    /// The most bytes at the same time while the index was made.
    peak: usize,
    /// The most extents or entries that one look-up read.
    most: usize,
    /// The extents or entries that the look-ups of all objects read together.
    all: usize,
}

/// Looks up each of `ids` in `index`, and the granule after it, and returns what that costs.
fn look_ups<A: Allocator>(index: &IdIndex<A>, ids: &[u64]) -> Cost {
    let (mut most, mut all) = (0usize, 0usize);
    for id in ids {
        let probes = index.look_up(*id).probes;
        let next = index.look_up(id.wrapping_add(8)).probes;
        most = most.max(probes).max(next);
        all = all.saturating_add(probes);
    }
    Cost { peak: 0, most, all }
}

/// Like [`look_ups`], for an index by extents that is made on `heap`.
fn by_extents(heap: &LimitedHeap<Global>, ids: &[u64]) -> Result<Option<Cost>, AllocError> {
    if ids.len() > MANY {
        return Ok(None);
    }
    Ok(Some(look_ups(&index_of(heap, ids)?, ids)))
}

/// Like [`look_ups`], for an index of narrow entries that is made on `heap`, or `None` if these do not serve.
fn by_narrow<T: Threads + Sync>(
    rt: &T,
    heap: &LimitedHeap<Global>,
    ids: &[u64],
    parts: usize,
) -> Result<Option<Cost>, AllocError> {
    if ids.len() > MANY {
        return Ok(None);
    }
    match narrow_index(rt, heap, ids, 0, parts)? {
        Some(index) => Ok(Some(look_ups(&index, ids))),
        None => Ok(None),
    }
}

/// Like [`look_ups`], for an index of wide entries that is made on `heap`.
fn by_wide(heap: &LimitedHeap<Global>, ids: &[u64]) -> Result<Option<Cost>, AllocError> {
    if ids.len() > MANY {
        return Ok(None);
    }
    Ok(Some(look_ups(&wide_index(heap, ids)?, ids)))
}

/// Like [`look_ups`], for an index of the form `form` that is made on `heap`, or `None` if none is made.
fn look_ups_in<T: Threads + Sync>(
    rt: &T,
    heap: &LimitedHeap<Global>,
    form: Form,
    ids: &[u64],
) -> Result<Option<Cost>, AllocError> {
    match form {
        Form::Extents => by_extents(heap, ids),
        Form::Narrow(parts) => by_narrow(rt, heap, ids, parts),
        Form::Wide => by_wide(heap, ids),
    }
}

/// Returns the cost of an index of `MANY` identifiers in `order`, `apart` granules apart, or `None` if none is made.
fn cost_of<T: Threads + Sync>(
    rt: &T,
    alloc: Global,
    form: Form,
    order: Order,
    apart: u64,
) -> Result<Option<Cost>, AllocError> {
    let heap = LimitedHeap::new(alloc, u64::MAX);
    let ids = ids_in(alloc, order, apart)?;
    match look_ups_in(rt, &heap, form, &ids)? {
        Some(Cost { peak: _, most, all }) => {
            let peak = heap.usage().peak;
            Ok(Some(Cost { peak, most, all }))
        }
        None => Ok(None),
    }
}

/// Tests whether an index was made, in at most `peak` bytes and a tenth more, and whether its look-ups read at most
/// `most` extents or entries each, and those of objects at most `tenths` tenths of one on average.
fn is_within(cost: Option<Cost>, peak: usize, most: usize, tenths: usize) -> bool {
    let Some(cost) = cost else {
        return false;
    };
    cost.peak <= peak.saturating_add(peak / 10)
        && cost.most <= most
        && cost.all.saturating_mul(10) <= tenths.saturating_mul(MANY)
}

/// The form of an index, the order of its identifiers and their distance in granules. Then what the index costs: the
/// most bytes while it is made, the most extents or entries that a look-up reads, and ten times what one that finds an
/// object reads on average.
///
/// An extent takes 24 bytes, and half as many again while the list of extents doubles. The stretches are sorted in
/// room for as many extents. A right guess reads two extents. If all 64 objects of a page are extents of their own, a
/// look-up reads 32 more on average. In a crowded bucket it halves, and goes through half of 64 extents.
///
/// A narrow entry takes 8 bytes, and a page 12. Each object is found where its page guesses it; other identifiers are
/// sought by halving.
///
/// A wide entry takes 12 bytes, and at most 1 for guesses. A look-up reads two entries beside a bucket of at most
/// eight, halves the bucket, and reads the entry that it finds.
const COSTS: [(Form, Order, u64, usize, usize, usize); 17] = [
    (Form::Extents, Order::Ascending, 1, 36 * MANY / 64, NEAR, 21),
    (Form::Extents, Order::Ascending, 4, 36 * MANY / 16, NEAR, 21),
    (Form::Extents, Order::Ascending, 16, 36 * MANY / 4, NEAR, 21),
    (Form::Extents, Order::Ascending, 64, 36 * MANY, NEAR, 21),
    (Form::Extents, Order::Ascending, 512, 36 * MANY, NEAR, 21),
    (Form::Extents, Order::Stretches, 1, 48 * MANY / 64, NEAR, 21),
    (Form::Extents, Order::Close, 1, 36 * MANY, NEAR, 365),
    (Form::Extents, Order::Close, 64, 36 * MANY, NEAR, 21),
    (Form::Extents, Order::Crowded, 64, 36 * MANY, CROWDED, 460),
    (Form::Narrow(1), Order::Close, 1, DENSE, NARROW, 10),
    (Form::Narrow(4), Order::Close, 1, DENSE, NARROW, 10),
    (Form::Narrow(1), Order::Close, 31, 14 * MANY, NARROW, 10),
    (Form::Narrow(4), Order::Close, 31, 14 * MANY, NARROW, 10),
    (Form::Wide, Order::Close, 1, 13 * MANY, WIDE, 70),
    (Form::Wide, Order::Close, 1000, 13 * MANY, WIDE, 70),
    (Form::Wide, Order::Close, 1 << 40, 13 * MANY, WIDE, 70),
    (Form::Wide, Order::Crowded, 1, 13 * MANY, WIDE, 180),
];

#[test]
fn an_index_costs_at_most_what_its_form_says(rt: HostRuntime) -> Result<(), Fail> {
    for (row, (form, order, apart, peak, most, tenths)) in COSTS.iter().enumerate() {
        let cost = cost_of(&rt, rt.alloc(), *form, *order, *apart)?;
        let right = is_within(cost, *peak, *most, *tenths);
        assert!(rt; right, "row {row}: {cost:?}");
    }
    Ok(())
}
