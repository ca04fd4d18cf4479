//! The granules that the identifiers of objects in no order take. They are noted before the entries are placed.

ghost use Rattle.std.specs.Prelude.{IfOk, length, ◌*◌, ◌<◌, ◌≤◌, ◌^◌, ◌≡◌, ℕ};

use crate::extents::GRANULES;
use crate::index::LowBits;
use crate::narrow_entries::NarrowEntry;
use crate::page_words::PageWords;
use std::alloc::{AllocError, Allocator};
use std::marker::Model;
use std::thread;
use std::thread::Threads;

/// The most pages that entries may span. They have 2^32 granules, one for each value of `NarrowEntry::at`.
const MOST_PAGES: u64 = 1 << 26;

/// For every `MARGIN` pages from the least identifier to the greatest, one page is added on either side. With the added
/// pages, the ends of a sample serve for all identifiers of most heaps.
const MARGIN: usize = 16;

/// A page on which no granule is taken.
const EMPTY: NarrowEntry = NarrowEntry { at: 0, number: 0 };

/// Returns the page of `id`.
fn page_of(bits: LowBits, id: u64) -> u64
    requires { bits.shift < 64 }
    ensures { result * 64 < 2 ^ 64 }
{
    (id >> bits.shift) / GRANULES
}

/// Tests whether `count` identifiers from `least` to `greatest` are close enough together for entries.
pub fn are_close(bits: LowBits, least: u64, greatest: u64, count: u32) -> bool
    requires { bits.shift < 64 }
{
    let (first, last) = (page_of(bits, least), page_of(bits, greatest));
    // With two objects a page on average, an object takes 14 bytes: the 8 of its entry and half the 12 of a page.
    first <= last && last - first < MOST_PAGES.min(u64::from(count) / 2)
}

/// Notes in `page` the granules that are noted in `more`.
fn join_page(page: &mut NarrowEntry, more: NarrowEntry) {
    page.at |= more.at;
    page.number |= more.number;
}

/// Returns how many of `pages` come before the first one on which a granule is taken, and the pages from that one to
/// the last one on which a granule is taken. If no granule is taken, returns the number of `pages`, and no page.
fn trimmed(pages: &[NarrowEntry]) -> (usize, &[NarrowEntry])
    ensures { length result.1.now ≤ length pages.now }
{
    let mut begin = 0;
    while begin < pages.len() && pages[begin].at == 0 && pages[begin].number == 0 {
        begin += 1;
    }
    let mut end = pages.len();
    while end > begin && pages[end - 1].at == 0 && pages[end - 1].number == 0 {
        end -= 1;
    }
    (begin, &pages[begin..end])
}

/// Returns how many pages of the first part come before the first one on which a granule is taken, and the page words
/// from that page to the last one on which a granule is taken. The first part has the first `span` of `pages`.
/// `AllocError` if the allocation fails.
fn words_of<A: Allocator>(
    alloc: A,
    pages: &[NarrowEntry],
    span: usize,
) -> Result<(usize, PageWords<A>), AllocError>
    ensures { IfOk result (λ made. length made.1.pages.items ≤ span) }
{
    let (before, taken) = trimmed(&pages[..span.min(pages.len())]);
    let words = PageWords::of(alloc, taken)?;
    Ok((before, words))
}

/// How the granule of an identifier follows from the identifier.
#[derive(Clone, Copy)]
struct Numbering {
    /// The identifier of the first granule of the first page, shifted right by `shift`.
    lowest: u64,
    /// The number of lowest bits that are shifted out of an identifier.
    shift: u32,
}

impl Numbering {
    /// Notes in `pages` the granule of `id`. Ignores an `id` that has no granule there.
    fn note(self, pages: &mut [NarrowEntry], id: u64) {
        let at = id.wrapping_shr(self.shift).wrapping_sub(self.lowest);
        if at / GRANULES < pages.len() as u64 {
            let bit = 1u64 << (at % GRANULES) as u32;
            let taken = NarrowEntry {
                at: (bit % (1 << 32)) as u32,
                number: (bit >> 32) as u32,
            };
            join_page(&mut pages[(at / GRANULES) as usize], taken);
        }
    }

    /// Notes in `pages` the granules of the objects whose numbers are at least `start` and below `end`. `id_of` returns
    /// the identifier of an object by its number.
    fn note_part<F: Fn(usize) -> u64>(
        self,
        pages: &mut [NarrowEntry],
        start: usize,
        end: usize,
        id_of: &F,
    )
        requires { (n : ℕ) → n < end → F.pre id_of.now n }
    {
        for number in start..end {
            self.note(pages, id_of(number));
        }
    }
}

/// The pages around the identifiers of objects, with a bit for each granule: it is set if an object's identifier is
/// noted there. To a contract an `UsedIds` is the number of objects.
// No clause says which bits are set. The bits only say where entries are placed, and all entries are tested afterwards.
// Each part of the objects has pages of its own, so that threads can note several parts at the same time. The bits of a
// page are kept in a `NarrowEntry`: those of the first 32 granules in `at`, the others in `number`. The entries later
// take the same memory.
#[derive(Drop)]
pub struct UsedIds<A: Allocator> {
    numbering: Numbering,
    /// The number of objects.
    pub(crate) count: u32,
    /// The number of pages of each part.
    span: usize,
    /// The pages of the first part, then those of the next part, and so on. There is room for an entry for each object.
    pub(crate) pages: Vec<NarrowEntry, A>,
}

impl<A: Allocator> Model for UsedIds<A> {
    ghost use Rattle.std.specs.Prelude.{ℕ, ◌<◌};

    ghost Value = { ℕ };

    ghost view = { λ p. p.count };

    ghost invariant = { λ p. 0 < p.span };
}

impl<A: Allocator> UsedIds<A> {
    /// Creates pages for `count` objects, on which no granule is taken: those from `least` to `greatest`, and on either
    /// side a sixteenth as many. There are at most `parts` parts, but at least one. `AllocError` if an allocation
    /// fails.
    pub fn new(
        alloc: A,
        bits: LowBits,
        least: u64,
        greatest: u64,
        count: u32,
        parts: usize,
    ) -> Result<Self, AllocError>
        requires { bits.shift < 64 }
        ensures { IfOk result (λ p. p ≡ count) }
    {
        let first = page_of(bits, least);
        let inner = page_of(bits, greatest).saturating_sub(first) as usize + 1;
        let margin = inner / MARGIN;
        let span = inner + 2 * margin;
        // If there are several parts, they take no more memory than the entries will.
        let parts = parts.min(count as usize / span).max(1);
        let mut pages = Vec::with_capacity(alloc, count as usize)?;
        pages.resize(span.saturating_mul(parts), EMPTY)?;
        Ok(UsedIds {
            numbering: Numbering {
                lowest: first.saturating_sub(margin as u64) * GRANULES,
                shift: bits.shift,
            },
            count,
            span,
            pages,
        })
    }

    /// Notes the granules of all objects. `id_of` returns the identifier of an object by its number; one that is on
    /// none of the pages is ignored. The parts are noted at the same time, as far as `rt` can start threads.
    pub fn note_all<T: Threads + Sync, F: Fn(usize) -> u64 + Sync>(&mut self, rt: &T, id_of: &F)
        requires { (n : ℕ) → n < self.old → F.pre id_of.now n }
        ensures { self.new ≡ self.old }
    {
        let (numbering, span, count) = (self.numbering, self.span, self.count as usize);
        let share = count.div_ceil((self.pages.len() / span).max(1));
        let note = |start: usize, pages: &mut [NarrowEntry]|
            requires { (0 < span) × ((n : ℕ) → n < count → F.pre id_of.now n) }
        {
            let from = (start / span).saturating_mul(share);
            let end = count.min(from.saturating_add(share));
            numbering.note_part(pages, from, end, id_of);
        };
        thread::for_each_chunk_mut(rt, self.pages.as_mut_slice(), span, &note);
    }

    /// Notes in the first part the granules that are noted in the others.
    fn join(&mut self)
        ensures { self.new ≡ self.old }
    {
        let end = self.span.min(self.pages.len());
        let (first, others) = self.pages.split_at_mut(end);
        for part in others.chunks(self.span) {
            for (page, more) in first.iter_mut().zip(part) {
                join_page(page, *more);
            }
        }
    }

    /// Returns the identifier, without its lowest bits, at which the first page with a taken granule begins, and the
    /// page words from that page to the last page with a taken granule. If no granule is taken, the page words have no
    /// page. `AllocError` if the allocation fails.
    pub(crate) fn words<B: Allocator>(
        &mut self,
        alloc: B,
    ) -> Result<(u64, PageWords<B>), AllocError>
        ensures { self.new ≡ self.old }
    {
        self.join();
        let (before, words) = words_of(alloc, &self.pages, self.span)?;
        let lowest = self
            .numbering
            .lowest
            .wrapping_add((before as u64).wrapping_mul(GRANULES));
        Ok((lowest, words))
    }
}
