//! Look-ups in ascending extents.

ghost use Rattle.std.specs.Prelude.{IfNone, IfSome, MatchOption, ◌/◌, ◌<◌, ◌≢◌, ◌≤◌, ◌^◌};
ghost use Rattle.std.specs.Int.{bit_at};
ghost use Rattle.id_index.specs.working.Beginnings.{AreBeginnings, IsAround};
ghost use Rattle.id_index.specs.working.Extents.{AreAscending, AreFewAPage, HasBearer, IsBearerAt, IsFirstBearer};
ghost use Rattle.id_index.specs.working.Extents.{IsFirstFrom, IsNumberAt, end_of, extent_in};

use crate::beginnings::Beginnings;
use crate::extents::{Extent, GRANULES};
use crate::look_up::LookUp;
use crate::page_search::{SEARCHING, first_from};
use std::alloc::Allocator;

/// The most extents of one page: each has an object at a granule where no earlier extent of the page has one.
const PAGE_EXTENTS: usize = 64;

/// The most extents that a look-up reads if its guess is right: the guessed one, and the one before it.
pub(crate) const GUESSED: usize = 2;

/// The most extents that a look-up reads: for its guess, for the search of the first extent of a page, and from there.
const MOST_READ: usize = GUESSED + SEARCHING + PAGE_EXTENTS;

/// Returns the number of the object that `extent` has at granule `granule`, or `None` if it has no object there.
// Inlined, as [`first_bearer`] is.
#[inline(always)]
fn number_at_granule(extent: Extent, granule: u32) -> Option<u32>
    requires granule { granule < 64 }
    requires few { end_of extent < 2 ^ 32 }
    ensures { MatchOption result (bit_at extent.granules granule ≢ 1) (λ number. IsNumberAt extent granule number) }
{
    // The bits of the granules up to `granule`, with its own bit as the highest. If this bit is set, the number of set
    // bits less one is the number of objects of the extent before this one.
    let up_to = extent.granules << (63 - granule);
    if up_to < 1 << 63 {
        return None;
    }
    Some(extent.first + (up_to.count_ones() - 1))
}

/// Returns the number of the object that bears `id`, if the extent at index `at` has that object and is the first
/// extent of its page. Returns `None` otherwise.
// Inlined, as the look-up is.
#[inline(always)]
fn number_at(extents: &[Extent], at: usize, id: u64) -> Option<u32>
    requires { AreAscending extents.now }
    ensures some { IfSome result (λ number. IsBearerAt extents.now id number at) }
    ensures none { IfNone result (IsFirstFrom extents.now (id / 64) at → HasBearer (extent_in extents.now at) id → ⊥) }
{
    let page = id / GRANULES;
    if at >= extents.len() || extents[at].page != page {
        return None;
    }
    if at > 0 && extents[at - 1].page >= page {
        return None;
    }
    number_at_granule(extents[at], (id % GRANULES) as u32)
}

/// Returns the number of the object that bears `id` in the first extent with such an object, or `None` if there is no
/// such extent. `from` is the index of the first extent whose page is not below that of `id`.
fn number_from(extents: &[Extent], from: usize, id: u64) -> LookUp
    requires extents { AreAscending extents.now }
    requires few { AreFewAPage extents.now }
    requires from { IsFirstFrom extents.now (id / 64) from }
    ensures first { IsFirstBearer extents.now id result.number }
    ensures probes { result.probes ≤ PAGE_EXTENTS }
{
    let (page, granule) = (id / GRANULES, (id % GRANULES) as u32);
    let end = extents.len().min(from.saturating_add(PAGE_EXTENTS));
    for at in from..end {
        let extent = extents[at];
        let probes = at - from + 1;
        if extent.page != page {
            return LookUp {
                number: None,
                probes,
            };
        }
        if let Some(number) = number_at_granule(extent, granule) {
            return LookUp {
                number: Some(number),
                probes,
            };
        }
    }
    LookUp {
        number: None,
        probes: PAGE_EXTENTS,
    }
}

/// Like [`first_bearer`], for an `id` that was not found at the guess `near`. The first extent whose page is not below
/// that of `id` is at index `begin` or later, and at `end` or earlier.
// Not inlined, so that nearly all look-ups are one straight line.
#[inline(never)]
fn search_extents(extents: &[Extent], begin: usize, end: usize, near: usize, id: u64) -> LookUp
    requires extents { AreAscending extents.now }
    requires few { AreFewAPage extents.now }
    requires around { IsAround extents.now (id / 64) begin end }
    ensures first { IsFirstBearer extents.now id result.number }
    ensures probes { result.probes ≤ MOST_READ }
{
    let (from, probes) = first_from(extents, begin, end, near, id / GRANULES);
    let found = number_from(extents, from, id);
    LookUp {
        number: found.number,
        probes: GUESSED + probes + found.probes,
    }
}

/// Returns the number of the object that bears `id` in the first extent with such an object, or `None` if there is no
/// such extent. Reads at most `GUESSED` extents if the guess is right.
// Inlined, as the `find` of an index is, which only forwards to this.
#[inline(always)]
pub(crate) fn first_bearer<A: Allocator>(
    extents: &[Extent],
    beginnings: &Beginnings<A>,
    id: u64,
) -> LookUp
    requires extents { AreAscending extents.now }
    requires few { AreFewAPage extents.now }
    requires begun { AreBeginnings extents.now beginnings.now }
    ensures first { IsFirstBearer extents.now id result.number }
    ensures probes { result.probes ≤ MOST_READ }
{
    let page = id / GRANULES;
    let (begin, end) = match beginnings.around(extents, page) {
        Some(range) => range,
        None => return LookUp::nothing(),
    };
    let near = beginnings.guess(page, begin, end);
    match number_at(extents, near, id) {
        Some(number) => LookUp {
            number: Some(number),
            probes: GUESSED,
        },
        None => search_extents(extents, begin, end, near, id),
    }
}
