//! Lists of identifiers, whose indexes are compared with a search one by one.

use super::beside::{agrees_or_refused, finds, first_of};
use super::making::index_of;
use id_index::IdIndex;
use limited_heap::{LimitedHeap, requests_of};
use std::alloc::{AllocError, Allocator, Global};
use std::test::Fail;

/// Identifiers that repeat at once, after an extent of the same page and after an extent of another page; extents that
/// overlap; pages that alternate; identifiers at both ends of 64 bits; identifiers with other lowest bits than the
/// first one; and identifiers that crowd into one bucket.
pub const LISTS: [&[u64]; 21] = [
    &[],
    &[7],
    &[0],
    &[u64::MAX],
    &[u64::MAX, 0],
    &[0, u64::MAX, 0, u64::MAX],
    &[5, 5, 5, 5, 5, 5, 5, 5, 5, 5, 5, 5, 5, 5, 5, 5, 5, 5, 5, 5],
    &[9, 3, 9, 3, 1, 1, 9],
    &[3, 7, 9, 5, 7, 8, 9, 10],
    &[1, 2, 3, 4, 2, 3, 4, 5, 1, 6],
    &[63, 64, 65, 64, 63],
    &[0, 64, 128, 1, 65, 129, 2, 66, 130, 64],
    &[
        70, 1, 71, 2, 72, 3, 73, 4, 74, 5, 75, 6, 76, 7, 77, 8, 78, 9, 79, 10, 80, 11,
    ],
    &[
        0, 64, 0, 64, 0, 64, 0, 64, 0, 64, 0, 64, 0, 64, 0, 64, 0, 64, 0, 64, 0, 64,
    ],
    &[0x1000, 0x1008, 0x1010, 0x1011],
    &[0x1004, 0x100c, 0x1014, 0x1000, 0x1200],
    &[0x1004, 0x100c, 0x1014, 0x1204, 0x100c, 0x1404],
    &[
        u64::MAX,
        u64::MAX - 8,
        u64::MAX - 16,
        u64::MAX - 512,
        u64::MAX - 520,
    ],
    &[
        u64::MAX,
        20,
        19,
        18,
        17,
        16,
        15,
        14,
        13,
        12,
        11,
        10,
        9,
        8,
        7,
        6,
        5,
        4,
        3,
        2,
        1,
        0,
        10,
        20,
    ],
    &[
        0x7000_0010,
        0x7000_0028,
        0x7000_0040,
        0x7000_0010,
        0x7f00_0000,
        0x7f00_0008,
        0x7000_0100,
    ],
    &[
        1,
        0x8000_0000_0000_0000,
        0x4000_0000_0000_0000,
        0xc000_0000_0000_0000,
        1,
    ],
];

/// Lists of neighbours: the first identifier, the distance of each from the one before it, modulo 2^64, and their
/// number. Some lists ascend and some descend, within pages and from page to page, by whole pages and by multiples of
/// eight.
const NEIGHBOURS: [(u64, u64, usize); 16] = [
    (0, 1, 63),
    (0, 1, 64),
    (0, 1, 65),
    (40, 1, 130),
    (0, 8, 63),
    (0, 8, 64),
    (0, 8, 65),
    (0x7f00_0004, 8, 130),
    (u64::MAX - 64, 1, 65),
    (u64::MAX - 512, 8, 65),
    (63, u64::MAX, 64),
    (100, u64::MAX, 101),
    (800, u64::MAX - 7, 101),
    (0, 64, 70),
    (0x7f00_0000, 512, 70),
    (0x7f00_0000, u64::MAX - 511, 70),
];

/// Makes the index of `ids` on `heap`. Tests whether the index agrees with a search one by one, or was not made because
/// `heap` refused an allocation.
fn is_right(heap: &LimitedHeap<Global>, ids: &[u64]) -> bool {
    if ids.len() > 1000 {
        return false;
    }
    agrees_or_refused(&index_of(heap, ids), heap, ids)
}

/// Each allocation fails in turn. If an index is made even so, the index agrees with a search one by one.
#[test]
fn as_one_by_one_or_out_of_memory(rt: HostRuntime) {
    for ids in LISTS {
        let requests = requests_of(rt.alloc(), |heap| is_right(heap, ids));
        assert!(rt; requests.is_some(), "{} identifiers", ids.len());
    }
}

/// Returns `count` identifiers from `first` on, each `step` after the one before it.
fn neighbours(alloc: Global, first: u64, step: u64, count: usize) -> Result<Vec<u64>, AllocError> {
    let mut ids = Vec::new(alloc);
    let mut id = first;
    for _ in 0..count {
        ids.push(id)?;
        id = id.wrapping_add(step);
    }
    Ok(ids)
}

#[test]
fn neighbours_or_out_of_memory(rt: HostRuntime) -> Result<(), Fail> {
    for (first, step, count) in NEIGHBOURS {
        let ids = neighbours(rt.alloc(), first, step, count)?;
        let requests = requests_of(rt.alloc(), |heap| is_right(heap, &ids));
        assert!(rt; requests.is_some(), "{count} from {first}");
    }
    Ok(())
}

/// Tests whether the index returns for each identifier below `most` what a search one by one returns.
fn finds_all<A: Allocator>(index: &IdIndex<A>, ids: &[u64], most: u64) -> bool {
    for id in 0..most {
        if !finds(index, id, first_of(ids, id)) {
            return false;
        }
    }
    true
}

/// Returns a thousand identifiers, some of them repeated.
fn thousand(alloc: Global) -> Result<Vec<u64>, AllocError> {
    let mut ids = Vec::new(alloc);
    let mut id = 1u64;
    for _ in 0..1000 {
        id = id
            .wrapping_mul(6_364_136_223_846_793_005)
            .wrapping_add(1_442_695_040_888_963_407);
        ids.push((id >> 54) << 3)?;
    }
    Ok(ids)
}

/// Like [`finds_all`], for an index that is made of `ids`.
fn is_found(alloc: Global, ids: &[u64], most: u64) -> Result<bool, AllocError> {
    if ids.len() > 1000 {
        return Ok(false);
    }
    let index = index_of(alloc, ids)?;
    Ok(finds_all(&index, ids, most))
}

#[test]
fn many_identifiers(rt: HostRuntime) -> Result<(), Fail> {
    let ids = thousand(rt.alloc())?;
    let found = is_found(rt.alloc(), &ids, 8200);
    assert_eq!(rt; found, Ok(true));
    Ok(())
}
