//! Extents are sorted, in one of two ways.

ghost use Rattle.std.specs.Prelude.{IfOk, IsPermutation, IsSorted};
ghost use Rattle.id_index.specs.working.Building.{extent_cmp};

use crate::extents::Extent;
use std::alloc::{AllocError, Allocator};

/// The least average length of ascending stretches that are worth merging. A guess, which was never measured on
/// extents.
const LONG_STRETCH: usize = 16;

/// Tests whether the pages of `extents` descend so often that ascending stretches are shorter than `LONG_STRETCH` on
/// average.
fn descends_often(extents: &[Extent]) -> bool {
    let mut descents = 0usize;
    for at in 1..extents.len() {
        if extents[at].page < extents[at - 1].page {
            descents += 1;
        }
    }
    descents > extents.len() / LONG_STRETCH
}

/// Sorts extents. `AllocError` if the allocation of the stable sort fails.
// G1 and the other collectors that move objects in regions leave long ascending stretches, which the stable sort merges
// in a few passes. If about every second extent descends, the other sort is faster and needs no memory. Extents of one
// page differ in their numbers, so both sorts give the same order.
pub(crate) fn sort_extents<A: Allocator>(extents: &mut Vec<Extent, A>) -> Result<(), AllocError>
    ensures permutation { IsPermutation extents.old.items extents.new.items }
    ensures sorted { IfOk result (λ _. IsSorted extent_cmp extents.new.items) }
{
    if descends_often(extents) {
        extents.sort_unstable();
        return Ok(());
    }
    extents.sort()
}
