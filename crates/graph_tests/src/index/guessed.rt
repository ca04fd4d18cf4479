//! Look-ups that are guessed, without a search.

use super::making::index_of;
use super::narrow::narrow_index;
use id_index::IdIndex;
use std::alloc::{AllocError, Allocator, Global};
use std::test::Fail;
use std::thread::Threads;

/// The number of identifiers of a list.
const MANY: u64 = 1000;

/// Counts the identifiers of `ids` that the index finds without a search.
fn count_guessed<A: Allocator>(index: &IdIndex<A>, ids: &[u64]) -> usize {
    let mut guessed = 0usize;
    for id in ids {
        guessed = guessed.saturating_add(usize::from(index.is_guessed(*id)));
    }
    guessed
}

/// Returns `MANY` identifiers. Object `number` is at place `number * step`, modulo the prime 1009, and each place is
/// `apart` multiples of eight after the one before it.
fn granules(alloc: Global, step: u64, apart: u64) -> Result<Vec<u64>, AllocError> {
    let mut ids = Vec::new(alloc);
    for number in 0..MANY {
        let place = number.wrapping_mul(step) % 1009;
        ids.push(0x7f00_0000 + place.wrapping_mul(apart).wrapping_mul(8) % (1 << 30))?;
    }
    Ok(ids)
}

/// Counts the identifiers of `ids` that an index by extents finds without a search.
fn guessed_by_extents(alloc: Global, ids: &[u64]) -> Result<usize, AllocError> {
    if ids.len() > MANY as usize {
        return Ok(0);
    }
    Ok(count_guessed(&index_of(alloc, ids)?, ids))
}

/// Counts the identifiers of `ids` that an index of narrow entries finds without a search.
fn guessed_by_entries<T: Threads + Sync>(
    rt: &T,
    alloc: Global,
    ids: &[u64],
) -> Result<usize, AllocError> {
    if ids.len() > MANY as usize {
        return Ok(0);
    }
    match narrow_index(rt, alloc, ids, 0, 2)? {
        Some(index) => Ok(count_guessed(&index, ids)),
        None => Ok(0),
    }
}

/// How far objects are from one another, in granules: neighbours, a few on each page, one on each page, and one on each
/// eighth page.
const APART: [u64; 5] = [1, 3, 16, 64, 512];

/// Objects in order that are evenly spread. On the last pages guesses may be wrong, since their bucket is not full.
#[test]
fn extents_are_guessed(rt: HostRuntime) -> Result<(), Fail> {
    for apart in APART {
        let ids = granules(rt.alloc(), 1, apart)?;
        let guessed = guessed_by_extents(rt.alloc(), &ids)?;
        assert!(rt; guessed >= 900, "{guessed} at {apart} granules apart");
    }
    Ok(())
}

/// Objects in no order, two or more on each page.
#[test]
fn entries_are_guessed(rt: HostRuntime) -> Result<(), Fail> {
    for apart in [1, 3, 16, 31] {
        let ids = granules(rt.alloc(), 500, apart)?;
        let guessed = guessed_by_entries(&rt, rt.alloc(), &ids)?;
        assert!(rt; guessed == ids.len(), "{guessed} at {apart} granules apart");
    }
    Ok(())
}
