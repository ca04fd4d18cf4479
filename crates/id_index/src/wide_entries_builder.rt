//! The builder of an index for objects in no order that are far apart, or whose identifiers repeat or have different
//! lowest bits.

ghost use Rattle.std.specs.Prelude.{IfOk, [], length, ◌+◌, ◌++◌, ◌<◌, ◌^◌, ◌∷◌, ◌≡◌, ◌≤◌};

use crate::entry_guesses::EntryGuesses;
use crate::index::{Form, IdIndex, LowBits};
use crate::wide_entries::{WideEntry, WideIndex, least_repeat};
use std::alloc::{AllocError, Allocator};
use std::marker::Model;

/// No lowest bits: entries have whole identifiers.
const ALL_BITS: LowBits = LowBits { shift: 0, low: 0 };

/// The identifiers of objects in the order of the file. They may be any: an index of whole identifiers and numbers is
/// made of them, which takes at most 13 bytes an object. There are at most 2^32 - 1 objects.
#[derive(Drop)]
pub struct WideEntriesBuilder<A: Allocator> {
    /// An entry for each object, in the order of the file.
    entries: Vec<WideEntry, A>,
}

impl<A: Allocator> Model for WideEntriesBuilder<A> {
    ghost use Rattle.std.specs.Prelude.{List, length, map, ℕ, ◌<◌, ◌^◌};
    ghost use Rattle.id_index.specs.working.WideEntries.{AreNumbered, id_of};

    ghost Value = { List ℕ };

    ghost view = { λ b. map id_of b.entries.items };

    ghost invariant = { λ b. record {
      numbered : AreNumbered b.entries.items;
      few : length b.entries.items < 2 ^ 32;
    } };
}

impl<A: Allocator> WideEntriesBuilder<A> {
    /// Creates a builder without an object, with memory for `count` objects. `AllocError` if the allocation fails.
    pub fn new(alloc: A, count: u32) -> Result<Self, AllocError>
        ensures { IfOk result (λ b. b ≡ []) }
    {
        Ok(WideEntriesBuilder {
            entries: Vec::with_capacity(alloc, count as usize)?,
        })
    }

    /// Adds the next object, which has the identifier `id`. Allocates only if the builder has as many objects as it was
    /// created for. `AllocError` if the allocation fails.
    pub fn push(&mut self, id: u64) -> Result<(), AllocError>
        requires { length self.old + 1 < 2 ^ 32 }
        ensures { IfOk result (λ _. self.new ≡ self.old ++ id ∷ []) }
    {
        let number = self.entries.len() as u32;
        self.entries.push(WideEntry::new(id, number))?;
        Ok(())
    }

    /// Returns the index of the added objects. `AllocError` if the allocation from `alloc` fails: for the table of
    /// where entries begin.
    pub fn finish(self, alloc: A) -> Result<IdIndex<A>, AllocError>
        ensures { IfOk result (λ index. index ≡ self) }
    {
        let mut entries = self.entries;
        entries.sort_unstable_by_key(|entry| entry.key());
        let repeat = least_repeat(&entries);
        let guesses = EntryGuesses::of(alloc, &entries)?;
        let index = WideIndex {
            entries,
            guesses,
            repeat,
        };
        Ok(IdIndex::of(Form::Wide(index), ALL_BITS))
    }
}
