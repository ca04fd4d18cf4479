//! Makes an index of whole identifiers, from a list of identifiers, as callers do.

ghost use Rattle.std.specs.Prelude.{IfOk, length, ◌<◌, ◌^◌, ◌≡◌};

use super::beside::{agrees_or_refused, finds};
use super::lists::LISTS;
use id_index::{IdIndex, WideEntriesBuilder};
use limited_heap::{LimitedHeap, requests_of};
use std::alloc::{AllocError, Allocator, Global};
use std::test::Fail;
use test_dumps::Order;

/// Returns the index of objects with the identifiers `ids`, made of whole identifiers.
pub fn wide_index<A: Allocator + Copy>(alloc: A, ids: &[u64]) -> Result<IdIndex<A>, AllocError>
    requires few { length ids.now < 2 ^ 32 }
    ensures { IfOk result (λ index. index ≡ ids.now) }
{
    let mut builder = WideEntriesBuilder::new(alloc, ids.len() as u32)?;
    for id in ids {
        builder.push(*id)?;
    }
    builder.finish(alloc)
}

/// Makes the index of `ids` on `heap`. Tests whether the index agrees with a search one by one, or was not made because
/// `heap` refused an allocation.
fn is_right(heap: &LimitedHeap<Global>, ids: &[u64]) -> bool {
    if ids.len() > 1000 {
        return false;
    }
    agrees_or_refused(&wide_index(heap, ids), heap, ids)
}

/// All entries are allocated at once, and sorted where they are. If an index is made, it agrees with a search one by
/// one.
#[test]
fn wide_as_one_by_one_or_out_of_memory(rt: HostRuntime) {
    for ids in LISTS {
        let requests = requests_of(rt.alloc(), |heap| is_right(heap, ids));
        let wanted = Some(u64::from(!ids.is_empty()));
        assert_eq!(rt; requests, wanted, "{} identifiers", ids.len());
    }
}

/// The number of identifiers of a list with a table of where entries begin.
const MANY: u64 = 5000;

/// Returns `MANY` identifiers in no order, `apart` from one another.
fn spread(alloc: Global, apart: u64) -> Result<Vec<u64>, AllocError> {
    let mut ids = Vec::new(alloc);
    for number in 0..MANY {
        ids.push(Order::Close.id_of(number, MANY, 0, apart))?;
    }
    Ok(ids)
}

/// Counts the objects of `ids` that the index finds by their identifiers, and of these the ones that it finds by a
/// guess. An identifier one greater must not be found.
fn count_found<A: Allocator>(index: &IdIndex<A>, ids: &[u64]) -> (usize, usize) {
    let (mut found, mut guessed) = (0usize, 0usize);
    for (number, id) in ids.iter().enumerate() {
        if finds(index, *id, Some(number)) && finds(index, id.wrapping_add(1), None) {
            found = found.saturating_add(1);
            guessed = guessed.saturating_add(usize::from(index.is_guessed(*id)));
        }
    }
    (found, guessed)
}

/// Returns what [`count_found`] returns for the index of `ids`.
fn found_in(alloc: Global, ids: &[u64]) -> Result<(usize, usize), AllocError> {
    if ids.len() > MANY as usize {
        return Ok((0, 0));
    }
    Ok(count_found(&wide_index(alloc, ids)?, ids))
}

/// Identifiers that are evenly spread are found in few steps.
#[test]
fn wide_entries_are_guessed(rt: HostRuntime) -> Result<(), Fail> {
    for apart in [2, 1000, 1 << 40] {
        let ids = spread(rt.alloc(), apart)?;
        let (found, guessed) = found_in(rt.alloc(), &ids)?;
        assert_eq!(rt; found, ids.len(), "{apart} apart");
        assert!(rt; guessed >= 4900, "{guessed} at {apart} apart");
    }
    Ok(())
}
