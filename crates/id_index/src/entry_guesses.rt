//! A table of where entries of whole identifiers begin, by the leading bits of identifiers. It guesses the ends between
//! which a search halves.

use crate::beginnings::shift_for;
use crate::wide_entries::WideEntry;
use std::alloc::{AllocError, Allocator};

/// A bucket of identifiers for every `ENTRIES_EACH` entries, or fewer buckets: at most one byte of the table an entry.
const ENTRIES_EACH: u64 = 4;

/// Fewer entries have no table: they take at most 48 KiB, which stay in a processor's cache while it halves.
const MANY_ENTRIES: usize = 4096;

/// The beginnings of buckets in ordered entries. The bucket of an identifier is its distance from the least one,
/// shifted right by `shift`. No clause says that they are right: nothing but time rests on a guess.
#[derive(Drop)]
pub(crate) struct EntryGuesses<A: Allocator> {
    /// The least identifier.
    least: u64,
    shift: u32,
    /// For each bucket the index of the first entry that is not in a bucket before it, and at the end the number of
    /// entries. Empty if there are few entries.
    starts: Vec<u32, A>,
}

/// Returns the index of the first entry from index `from` on that is not in a bucket before `bucket`, or the number of
/// entries if there is none.
fn start_of(entries: &[WideEntry], least: u64, shift: u32, from: usize, bucket: u64) -> usize {
    for at in from..entries.len() {
        if entries[at].id().wrapping_sub(least).wrapping_shr(shift) >= bucket {
            return at;
        }
    }
    entries.len()
}

impl<A: Allocator> EntryGuesses<A> {
    /// Creates a table that guesses nothing. Allocates nothing.
    fn none(alloc: A) -> Self {
        EntryGuesses {
            least: 0,
            shift: 0,
            starts: Vec::new(alloc),
        }
    }

    /// Creates the table of ordered `entries`, or one that guesses nothing if there are few. `AllocError` if the
    /// allocation fails.
    pub(crate) fn of(alloc: A, entries: &[WideEntry]) -> Result<Self, AllocError> {
        if entries.len() < MANY_ENTRIES {
            return Ok(EntryGuesses::none(alloc));
        }
        let least = entries[0].id();
        let span = entries[entries.len() - 1].id().wrapping_sub(least);
        let shift = shift_for(span, (entries.len() as u64 / ENTRIES_EACH).max(2));
        let count = (span >> shift) + 2;
        let mut starts = Vec::with_capacity(alloc, count as usize)?;
        let mut at = 0;
        for bucket in 0..count {
            at = start_of(entries, least, shift, at, bucket);
            starts.push(u32::try_from(at).unwrap_or(u32::MAX))?;
        }
        Ok(EntryGuesses {
            least,
            shift,
            starts,
        })
    }

    /// Guesses the ends of the entries in the bucket of `id`. Returns `None` if the table has no such bucket.
    // Inlined into the look-up: a call would return the two numbers through memory.
    #[inline(always)]
    pub(crate) fn around(&self, id: u64) -> Option<(usize, usize)> {
        let bucket = id.wrapping_sub(self.least).wrapping_shr(self.shift);
        if bucket >= (self.starts.len() as u64).saturating_sub(1) {
            return None;
        }
        let at = bucket as usize;
        Some((self.starts[at] as usize, self.starts[at + 1] as usize))
    }
}
