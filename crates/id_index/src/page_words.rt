//! The page words: for each page a bit for each granule, set if an object is there, and the number of objects on the
//! pages before. They guess the index of the entry for a granule.

ghost use Rattle.std.specs.Prelude.{IfOk, length, ◌≡◌};

use crate::extents::{GRANULES, rank_in};
use crate::narrow_entries::NarrowEntry;
use std::alloc::{AllocError, Allocator};

/// The word of one page.
// Three words of 32 bits, 12 bytes: with a word of 64 bits for the granules, a page would take 16.
#[derive(Clone, Copy)]
pub(crate) struct Page {
    /// A bit for each granule, set if an object is there: the bits of the first 32 granules, and those of the others.
    granules: [u32; 2],
    /// The number of granules with an object on the pages before this one.
    begin: u32,
}

impl Page {
    /// Returns the bits of all 64 granules as one word.
    // Inlined, as `guess` is.
    #[inline(always)]
    fn granules(self) -> u64 {
        u64::from(self.granules[0]) | u64::from(self.granules[1]) << 32
    }
}

/// The pages from the first to the last one on which an object is noted. No clause says which bits are set: nothing but
/// time rests on a guess.
// The bits and the number of a page are beside each other, so that a look-up waits for memory once.
#[derive(Drop)]
pub(crate) struct PageWords<A: Allocator> {
    pub(crate) pages: Vec<Page, A>,
}

impl<A: Allocator> PageWords<A> {
    /// Creates the page words of `noted`: here each `NarrowEntry` has the bits of one page, as in an
    /// [`UsedIds`](crate::UsedIds). `AllocError` if the allocation fails.
    pub(crate) fn of(alloc: A, noted: &[NarrowEntry]) -> Result<Self, AllocError>
        ensures { IfOk result (λ words. length words.pages.items ≡ length noted.now) }
    {
        let empty = Page {
            granules: [0, 0],
            begin: 0,
        };
        let mut pages = vec![in alloc; empty; noted.len()]?;
        let mut begin = 0u32;
        for (page, taken) in pages.iter_mut().zip(noted) {
            page.granules = [taken.at, taken.number];
            page.begin = begin;
            begin = begin.wrapping_add(page.granules().count_ones());
        }
        Ok(PageWords { pages })
    }

    /// Returns how many granules before granule `at` have an object: the index of the entry of granule `at`, if all
    /// objects were noted. Returns `usize::MAX` if granule `at` is on none of the pages.
    // Inlined, as the look-up is.
    #[inline(always)]
    pub(crate) fn guess(&self, at: u64) -> usize {
        if at / GRANULES >= self.pages.len() as u64 {
            return usize::MAX;
        }
        let page = self.pages[(at / GRANULES) as usize];
        let rank = rank_in(page.granules(), (at % GRANULES) as u32);
        page.begin.wrapping_add(rank) as usize
    }
}
