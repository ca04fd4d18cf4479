//! Narrow entries are placed one object after the other, and an index is made of them.

ghost use Rattle.std.specs.Prelude.{IfOk, IfSome, IsTrue, [], ◌++◌, ◌∷◌, ◌≡◌};

use crate::narrow_entries::{NarrowEntry, NarrowIndex, UNSET, do_ascend};
use crate::page_words::PageWords;
use crate::used_ids::UsedIds;
use std::alloc::{AllocError, Allocator};
use std::marker::Model;

/// The identifiers of the added objects, in the order of the file. No two are the same. The granules of all objects
/// were noted before.
// An entry goes where the page words guess it, so that no entries are compared to order them. Whether all guesses were
// right is tested when all entries are set (`finish`).
#[derive(Drop)]
pub(crate) struct NarrowIndexBuilder<A: Allocator> {
    /// The identifier of the first granule of the least page.
    lowest: u64,
    words: PageWords<A>,
    /// An entry for each object, which is set when the object is pushed.
    entries: Vec<NarrowEntry, A>,
    /// How many objects were pushed.
    count: u32,
}

impl<A: Allocator> Model for NarrowIndexBuilder<A> {
    ghost use Rattle.std.specs.Prelude.{List, ℕ};
    ghost use Rattle.id_index.specs.working.NarrowEntries.{ArePlaced, ids_of_narrow};

    ghost Value = { List ℕ };

    ghost view = { λ b. ids_of_narrow b.entries.items b.lowest b.count };

    ghost invariant = { λ b. ArePlaced b.entries.items b.count };
}

impl<A: Allocator> NarrowIndexBuilder<A> {
    /// Creates a builder without an object, for the objects whose granules are noted in `noted`. `AllocError` if the
    /// allocation of the page words fails: the entries take the memory of `noted`.
    pub(crate) fn new(alloc: A, mut noted: UsedIds<A>) -> Result<Self, AllocError>
        ensures { IfOk result (λ b. b ≡ []) }
    {
        let (lowest, words) = noted.words(alloc)?;
        let count = noted.count as usize;
        let mut entries = noted.pages;
        entries.clear();
        let unset = NarrowEntry {
            at: 0,
            number: UNSET,
        };
        entries.resize(count, unset)?;
        Ok(NarrowIndexBuilder {
            lowest,
            words,
            entries,
            count: 0,
        })
    }

    /// Adds the next object, which has the identifier `id`. Returns `false` if `id` is before the first page or 2^32
    /// granules after its beginning, or if the entry at the guessed index is missing or set already. It is set already
    /// if an earlier object bears `id`.
    pub(crate) fn push(&mut self, id: u64) -> bool
        ensures { IsTrue result → self.new ≡ self.old ++ id ∷ [] }
    {
        if id < self.lowest || self.count as usize >= self.entries.len() {
            return false;
        }
        let at = id - self.lowest;
        let slot = self.words.guess(at);
        if at >= 1 << 32 || slot >= self.entries.len() || self.entries[slot].number != UNSET {
            return false;
        }
        self.entries[slot] = NarrowEntry {
            at: at as u32,
            number: self.count,
        };
        self.count += 1;
        true
    }

    /// Returns the index of the added objects. Returns `None` if an entry is not set, or if the entries do not ascend
    /// strictly.
    pub(crate) fn finish(self) -> Option<NarrowIndex<A>>
        ensures { IfSome result (λ index. index ≡ self) }
    {
        if (self.count as usize) < self.entries.len() || !do_ascend(&self.entries) {
            return None;
        }
        Some(NarrowIndex {
            lowest: self.lowest,
            words: self.words,
            entries: self.entries,
        })
    }
}
