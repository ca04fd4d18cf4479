//! Narrow entries: an object's identifier, as its distance from the least one, and the object's number. They are
//! ordered by identifier and searched by halving.

ghost use Rattle.std.specs.Prelude.{IsTrue, MatchOption, length, position, ◌==◌, ◌≡◌, ◌≤◌, ℕ};
ghost use Rattle.id_index.specs.working.NarrowEntries.{AreSet, DoAscend, Names};
ghost use Rattle.id_index.specs.Repeats.{IsFirstRepeat};

use crate::look_up::LookUp;
use crate::page_words::PageWords;
use std::alloc::Allocator;
use std::marker::Model;

/// The number in an entry that is not set: no object has this number.
pub(crate) const UNSET: u32 = u32::MAX;

/// The number of entries that a look-up reads if its guess is right.
pub(crate) const GUESSED: usize = 1;

/// An object's identifier and the object's number. While granules are noted, a `NarrowEntry` has the bits of a page
/// instead (`used_ids`).
#[derive(Clone, Copy)]
pub(crate) struct NarrowEntry {
    /// The identifier minus that of the first granule of the least page.
    pub(crate) at: u32,
    pub(crate) number: u32,
}

/// The objects by their identifiers, out of which the lowest bits are shifted. No two identifiers are the same. A
/// look-up first tries the entry that the page words guess.
#[derive(Drop)]
pub(crate) struct NarrowIndex<A: Allocator> {
    /// The identifier of the first granule of the least page.
    pub(crate) lowest: u64,
    pub(crate) words: PageWords<A>,
    /// An entry for each object.
    pub(crate) entries: Vec<NarrowEntry, A>,
}

impl<A: Allocator> Model for NarrowIndex<A> {
    ghost use Rattle.std.specs.Prelude.{List, length, ◌≡◌, ℕ};
    ghost use Rattle.id_index.specs.working.NarrowEntries.{Agree, DoAscend, ids_of_narrow};

    ghost Value = { List ℕ };

    ghost view = { λ i. ids_of_narrow i.entries.items i.lowest (length i.entries.items) };

    ghost invariant = { λ i. record {
      ascend : DoAscend i.entries.items (length i.entries.items);
      agree : Agree i.entries.items i.lowest (ids_of_narrow i.entries.items i.lowest (length i.entries.items));
    } };
}

/// Tests whether `entries` ascend strictly and all are set.
pub(crate) fn do_ascend(entries: &[NarrowEntry]) -> bool
    ensures ascend { IsTrue result → DoAscend entries.now (length entries.now) }
    ensures set { IsTrue result → AreSet entries.now (length entries.now) }
{
    for at in 0..entries.len() {
        if entries[at].number == UNSET {
            return false;
        }
        if at > 0 && entries[at - 1].at >= entries[at].at {
            return false;
        }
    }
    true
}

/// Looks up the object that bears `id` in the ascending `entries`, for an `id` that the guessed entry does not have.
// Not inlined, so that nearly all look-ups are one straight line.
#[inline(never)]
fn search_narrow(entries: &[NarrowEntry], lowest: u64, id: u64) -> LookUp
    requires low { lowest ≤ id }
    requires ascend { DoAscend entries.now (length entries.now) }
    ensures { MatchOption result.number ((n : ℕ) → Names entries.now lowest id n → ⊥)
        (λ n. Names entries.now lowest id n) }
{
    let mut probes = GUESSED;
    match entries.binary_search_by_key(&(id - lowest), |entry| {
        probes = probes.saturating_add(1);
        entry.at as u64
    }) {
        Ok(at) => {
            return LookUp {
                number: Some(entries[at].number),
                probes,
            };
        }
        Err(_) => {
            return LookUp {
                number: None,
                probes,
            };
        }
    }
}

impl<A: Allocator> NarrowIndex<A> {
    /// Looks up the object that bears `id`. The probes are entries.
    // Inlined, as is the `find` of an index, which forwards to it.
    #[inline(always)]
    pub(crate) fn look_up(&self, id: u64) -> LookUp
        ensures { result.number ≡ position (λ x. x == id) self.now }
    {
        if id < self.lowest {
            return LookUp::nothing();
        }
        let at = id - self.lowest;
        let near = self.words.guess(at);
        if near < self.entries.len() && self.entries[near].at as u64 == at {
            return LookUp {
                number: Some(self.entries[near].number),
                probes: GUESSED,
            };
        }
        search_narrow(&self.entries, self.lowest, id)
    }

    /// Returns the number of objects, since no object bears the identifier of another.
    pub(crate) fn first_repeat(&self) -> usize
        ensures { IsFirstRepeat self.now result }
    {
        self.entries.len()
    }
}
