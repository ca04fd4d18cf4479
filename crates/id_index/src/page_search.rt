//! The search of the first extent of a page among ascending extents, from a guess on.

ghost use Rattle.std.specs.Prelude.{◌+◌, ◌<◌, ◌≤◌, ◌⊎◌};
ghost use Rattle.id_index.specs.working.Beginnings.{IsAround};
ghost use Rattle.id_index.specs.working.Extents.{DoPagesRise, IsFirstFrom};

use crate::extents::Extent;
use crate::probes::Probes;

/// Among at most this many extents, a search goes from one extent to the next, beginning at the guess.
const FEW_EXTENTS: usize = 64;

/// How far from the guess are the two extents, one on either side, that a search probes first if there are more than
/// `FEW_EXTENTS` extents.
const REACH: usize = 32;

/// The most probes that it takes to narrow up to 2^64 extents to at most `FEW_EXTENTS`: two around a guess, and 58 that
/// halve.
const NARROWING: usize = 60;

/// The most probes that it takes to go through `FEW_EXTENTS` extents, first down and then up.
const WALKING: usize = 2 * FEW_EXTENTS;

/// The most probes of a search.
pub(crate) const SEARCHING: usize = NARROWING + WALKING;

/// Narrows the ends `low` and `high` by a probe of the extent at index `at`, and returns them. The index of the first
/// extent whose page is not below `page` is at least `low` and at most `high`, before and after. Returns the ends
/// unchanged, without a probe, if `at` is below `low`, or not below `high`.
fn after_probe(
    probes: &mut Probes,
    extents: &[Extent],
    low: usize,
    high: usize,
    at: usize,
    page: u64,
) -> (usize, usize)
    requires rise { DoPagesRise extents.now }
    requires around { IsAround extents.now page low high }
    requires probe { 0 < probes.old.left }
    ensures around { IsAround extents.now page result.0 result.1 }
    ensures within { (low ≤ result.0) × (result.1 ≤ high) }
    ensures past { low ≤ at → at < high → (result.1 ≤ at) ⊎ (at < result.0) }
    ensures probe { probes.old.left ≤ probes.new.left + 1 }
{
    if at < low || at >= high {
        return (low, high);
    }
    if probes.page(extents, at) < page {
        (at + 1, high)
    } else {
        (low, at)
    }
}

/// Narrows the extents between `begin` and `end` to at most `FEW_EXTENTS`, and returns the ends of those. Probes on
/// either side of the guess `near` first, which suffices if the guess is good, and halves what remains if it is not.
/// Also returns how many probes it took: at most `NARROWING`.
// Not inlined, so that a search of few extents has no locals for halving many.
#[inline(never)]
fn narrow(
    extents: &[Extent],
    begin: usize,
    end: usize,
    near: usize,
    page: u64,
) -> (usize, usize, usize)
    requires rise { DoPagesRise extents.now }
    requires around { IsAround extents.now page begin end }
    ensures around { IsAround extents.now page result.0 result.1 }
    ensures few { result.1 ≤ result.0 + FEW_EXTENTS }
    ensures probes { result.2 ≤ NARROWING }
{
    let mut probes = Probes::at_most(NARROWING);
    let (mut low, mut high) = (begin, end);
    let (before, behind) = (near.saturating_sub(REACH), near.saturating_add(REACH));
    (low, high) = after_probe(&mut probes, extents, low, high, before, page);
    (low, high) = after_probe(&mut probes, extents, low, high, behind, page);
    while high - low > FEW_EXTENTS {
        let middle = low + (high - low) / 2;
        (low, high) = after_probe(&mut probes, extents, low, high, middle, page);
    }
    (low, high, probes.taken_of(NARROWING))
}

/// Returns the index of the first of the ascending `extents` whose page is not below `page`, and the number of probes.
/// The index is at least `begin` and at most `end`, and is the same for any guess `near`; with a good guess the search
/// takes fewer probes. It takes at most `WALKING` probes, and `NARROWING` more if there are more than `FEW_EXTENTS`
/// extents between `begin` and `end`: at most `SEARCHING`.
pub(crate) fn first_from(
    extents: &[Extent],
    begin: usize,
    end: usize,
    near: usize,
    page: u64,
) -> (usize, usize)
    requires rise { DoPagesRise extents.now }
    requires around { IsAround extents.now page begin end }
    ensures first { IsFirstFrom extents.now page result.0 }
    ensures probes { result.1 ≤ SEARCHING }
{
    let (mut low, mut high, mut narrowing) = (begin, end, 0);
    if end - begin > FEW_EXTENTS {
        (low, high, narrowing) = narrow(extents, begin, end, near, page);
    }
    let mut probes = Probes::at_most(WALKING);
    // The guess may be outside the ends: from there the search would take more probes.
    let mut at = near.max(low).min(high);
    while at > low && probes.page(extents, at - 1) >= page {
        at -= 1;
    }
    while at < high && probes.page(extents, at) < page {
        at += 1;
    }
    (at, narrowing + probes.taken_of(WALKING))
}
