//! Sorted extents are pruned: those that have an object at a granule where no earlier extent of their page has one are
//! kept in front of the others.

ghost use Rattle.std.specs.Prelude.{bit_or, length, take, ◌<◌, ◌^◌, ◌≡◌, ◌≤◌};
ghost use Rattle.id_index.specs.working.Extents.{AreFewAPage};
ghost use Rattle.id_index.specs.working.Pruning.{ArePrunedBefore, AreSorted, IsKeptIfNew};

use crate::extents::Extent;
use std::alloc::Allocator;

/// Returns `seen`, the granules that were seen of page `page`, if `own` is the same page. Returns 0, which is no
/// granule, if `own` is another page.
pub(crate) fn seen_of(own: u64, page: u64, seen: u64) -> u64
    ensures same { own ≡ page → result ≡ seen }
    ensures other { (own ≡ page → ⊥) → result ≡ 0 }
{
    if own == page {
        return seen;
    }
    0
}

/// Moves the extent at index `at` to index `kept`, after the kept extents, unless all its granules `granules` are among
/// `seen`. Returns how many extents are kept then.
fn take_extent<A: Allocator>(
    extents: &mut Vec<Extent, A>,
    kept: usize,
    at: usize,
    granules: u64,
    seen: u64,
) -> usize
    requires order { kept ≤ at }
    requires within { at < length extents.old.items }
    ensures taken { IsKeptIfNew extents.old.items extents.new.items kept at granules seen result }
    ensures fits { bit_or seen granules < 2 ^ 64 }
{
    if granules & seen == granules {
        return kept;
    }
    extents.swap(kept, at);
    kept + 1
}

/// Moves extents to the back if earlier extents of their page have objects at all their granules. Returns how many
/// extents are kept in front. The kept extents still ascend, and at most 64 of them are of one page.
pub(crate) fn prune<A: Allocator>(extents: &mut Vec<Extent, A>) -> usize
    requires { AreSorted extents.old.items }
    ensures pruned { ArePrunedBefore extents.old.items extents.new.items (length extents.old.items) result }
    ensures few { AreFewAPage (take result extents.new.items) }
{
    let (mut page, mut seen, mut kept) = (0, 0, 0);
    for at in 0..extents.len() {
        let extent = extents[at];
        let before = seen_of(extent.page, page, seen);
        kept = take_extent(extents, kept, at, extent.granules, before);
        seen = before | extent.granules;
        page = extent.page;
    }
    kept
}
