//! The table of where pages begin among ascending extents, by the leading bits of pages.

ghost use Rattle.std.specs.Prelude.{IfOk, MatchOption, length, ◌+◌, ◌-◌, ◌/◌, ◌<◌, ◌≤◌, ◌^◌, ◌≡◌, ℕ};
ghost use Rattle.id_index.specs.working.Beginnings.{AreBeginnings, IsAround, IsBeginning, bucket_of};
ghost use Rattle.id_index.specs.working.Extents.{DoPagesRise, IsNoPage, page_in};

use crate::extents::Extent;
use std::alloc::{AllocError, Allocator};

/// The beginnings of buckets in ascending extents. The bucket of a page is the page's distance from the least page,
/// shifted right by `shift`.
#[derive(Drop)]
pub(crate) struct Beginnings<A: Allocator> {
    /// The least page, or 0 if there is no extent.
    pub(crate) least: u64,
    /// The distance of the greatest page from the least one.
    pub(crate) span: u64,
    pub(crate) shift: u32,
    /// A word in which only the lowest `shift` bits are set: a guess takes these bits of a distance.
    pub(crate) mask: u64,
    /// For each bucket the index of the first extent that is not in a bucket before it, and at the end the number of
    /// extents.
    pub(crate) starts: Vec<u32, A>,
}

/// Returns the least number of bits by which `span` has to be shifted right to be below `buckets`.
pub(crate) fn shift_for(span: u64, buckets: u64) -> u32
    requires { 2 ≤ buckets }
    ensures within { result < 64 }
    ensures few { span / 2 ^ result < buckets }
    ensures least { 0 < result → buckets ≤ span / 2 ^ (result - 1) }
{
    for shift in 0..63 {
        if span >> shift < buckets {
            return shift;
        }
    }
    63
}

/// Returns the least and the greatest page of ascending extents, or 0 for both if there is no extent.
fn ends_of(extents: &[Extent]) -> (u64, u64)
    requires { DoPagesRise extents.now }
    ensures order { result.0 ≤ result.1 }
    ensures low { (k : ℕ) → k < length extents.now → result.0 ≤ page_in extents.now k }
    ensures high { (k : ℕ) → k < length extents.now → page_in extents.now k ≤ result.1 }
{
    match extents.len() {
        0 => return (0, 0),
        count => return (extents[0].page, extents[count - 1].page),
    }
}

/// Returns the index of the first extent that is not in a bucket before `bucket`, or the number of extents if there is
/// none. No extent before index `from` is such an extent.
fn start_of(extents: &[Extent], least: u64, shift: u32, from: usize, bucket: u64) -> usize
    requires rise { DoPagesRise extents.now }
    requires low { (k : ℕ) → k < length extents.now → least ≤ page_in extents.now k }
    requires shifted { shift < 64 }
    requires within { from ≤ length extents.now }
    requires passed { (k : ℕ) → k < from → bucket_of least shift (page_in extents.now k) < bucket }
    ensures { IsBeginning extents.now least shift bucket result }
{
    for at in from..extents.len() {
        if (extents[at].page - least) >> shift >= bucket {
            return at;
        }
    }
    extents.len()
}

impl<A: Allocator> Beginnings<A> {
    /// Creates the table of `extents`. `AllocError` if an allocation fails.
    pub(crate) fn of(alloc: A, extents: &[Extent]) -> Result<Self, AllocError>
        requires rise { DoPagesRise extents.now }
        requires few { length extents.now < 2 ^ 32 }
        ensures { IfOk result (λ b. AreBeginnings extents.now b) }
    {
        let (least, greatest) = ends_of(extents);
        let span = greatest - least;
        let shift = shift_for(span, (extents.len() as u64 / 2).max(2));
        let count = (span >> shift) + 2;
        let mut starts = Vec::with_capacity(alloc, count as usize)?;
        let mut at = 0;
        for bucket in 0..count {
            at = start_of(extents, least, shift, at, bucket);
            starts.push(at as u32)?;
        }
        Ok(Beginnings {
            least,
            span,
            shift,
            mask: (1 << shift) - 1,
            starts,
        })
    }

    /// Returns where the extents of the bucket of `page` begin and end. Returns `None` if `page` is below the least
    /// page or above the greatest: then no extent is of `page`.
    // Inlined, as `guess` is: each look-up takes the two numbers, which a call would return through memory.
    #[inline(always)]
    pub(crate) fn around(&self, extents: &[Extent], page: u64) -> Option<(usize, usize)>
        requires rise { DoPagesRise extents.now }
        requires begun { AreBeginnings extents.now self.now }
        ensures { MatchOption result (IsNoPage extents.now page) (λ range. IsAround extents.now page range.0 range.1) }
    {
        // The distance of a page below the least one is greater than that of any extent's page, since it wraps.
        let distance = page.wrapping_sub(self.least);
        if distance > self.span {
            return None;
        }
        let bucket = (distance >> self.shift) as usize;
        Some((
            self.starts[bucket] as usize,
            self.starts[bucket + 1] as usize,
        ))
    }

    /// Guesses the index of the first extent of `page`. The extents of its bucket are those from index `begin` up to
    /// `end`: the guess takes their pages as evenly spread over the bucket. If the product wraps, the guess may be any
    /// index. Only time rests on a guess.
    // Inlined, as `around` is.
    #[inline(always)]
    pub(crate) fn guess(&self, page: u64, begin: usize, end: usize) -> usize
        requires shifted { self.now.shift < 64 }
        requires order { begin ≤ end }
    {
        let within = page.wrapping_sub(self.least) & self.mask;
        let passed = within.wrapping_mul((end - begin) as u64) >> self.shift;
        begin.wrapping_add(passed as usize)
    }
}
