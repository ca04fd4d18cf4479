//! Probes: a search reads an extent, and counts that. A search begins with a number of probes, and its proof fails if
//! the search could take more. No clause refuses a search that reads extents without a probe.

ghost use Rattle.std.specs.Prelude.{length, ◌+◌, ◌<◌, ◌≡◌, ◌≤◌};
ghost use Rattle.id_index.specs.working.Extents.{page_in};

use crate::extents::Extent;

/// The remaining probes.
#[derive(Drop)]
pub(crate) struct Probes {
    left: usize,
}

impl Probes {
    /// Creates `left` probes.
    #[inline(always)]
    pub(crate) fn at_most(left: usize) -> Self
        ensures { result.left ≡ left }
    {
        Probes { left }
    }

    /// Takes a probe: returns the page of the extent at index `at`.
    #[inline(always)]
    pub(crate) fn page(&mut self, extents: &[Extent], at: usize) -> u64
        requires left { 0 < self.old.left }
        requires within { at < length extents.now }
        ensures left { self.new.left + 1 ≡ self.old.left }
        ensures page { result ≡ page_in extents.now at }
    {
        self.left -= 1;
        extents[at].page
    }

    /// Returns how many probes were taken of `most`, with which the search began.
    #[inline(always)]
    pub(crate) fn taken_of(&self, most: usize) -> usize
        ensures { result ≤ most }
    {
        most.saturating_sub(self.left)
    }
}
