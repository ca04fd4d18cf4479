//! The builder of an index for objects in no order.

ghost use Rattle.std.specs.Prelude.{IfOk, IfSome, IsTrue, [], ◌≡◌, ◌↔◌, ◌%◌, ◌++◌, ◌∷◌, ◌<◌, ◌^◌};

use crate::index::{Form, IdIndex, LowBits};
use crate::narrow_index_builder::NarrowIndexBuilder;
use crate::used_ids::UsedIds;
use std::alloc::{AllocError, Allocator};
use std::marker::Model;

/// The identifiers of objects in the order of the file. All agree in their lowest bits, and an index of narrow entries
/// is made of them. A caller first notes the granules of all of them in an [`UsedIds`], and then pushes each.
// The identifiers are in the file already: a caller reads them there twice, so that no list of them takes memory.
#[derive(Drop)]
pub struct NarrowEntriesBuilder<A: Allocator> {
    entries: NarrowIndexBuilder<A>,
    bits: LowBits,
}

impl<A: Allocator> Model for NarrowEntriesBuilder<A> {
    ghost use Rattle.std.specs.Prelude.{◌<◌, ◌^◌};
    ghost use Rattle.id_index.specs.Aligned.{AlignedIds, whole_ids};

    ghost Value = { AlignedIds };

    ghost view = { λ b. record {
      ids = whole_ids b.bits.shift b.bits.low b.entries;
      shift = b.bits.shift;
      low = b.bits.low;
    } };

    ghost invariant = { λ b. record {
      shifted : b.bits.shift < 64;
      low : b.bits.low < 2 ^ b.bits.shift;
    } };
}

impl<A: Allocator> NarrowEntriesBuilder<A> {
    /// Creates a builder without an object, for the objects whose granules are noted in `noted`. Their identifiers have
    /// the lowest bits `bits`, with which `noted` was made. `AllocError` if an allocation fails.
    pub fn new(alloc: A, bits: LowBits, noted: UsedIds<A>) -> Result<Self, AllocError>
        requires shifted { bits.shift < 64 }
        requires low { bits.low < 2 ^ bits.shift }
        ensures { IfOk result (λ b. (b.ids ≡ []) × (b.shift ≡ bits.shift) × (b.low ≡ bits.low)) }
    {
        let entries = NarrowIndexBuilder::new(alloc, noted)?;
        Ok(NarrowEntriesBuilder { entries, bits })
    }

    /// Tests whether `id` has the lowest bits that all identifiers have.
    pub fn fits(&self, id: u64) -> bool
        ensures { IsTrue result ↔ (id % 2 ^ self.now.shift ≡ self.now.low) }
    {
        id % (1 << self.bits.shift) == self.bits.low
    }

    /// Adds the next object, which has the identifier `id`. Returns `false` if an earlier object bears `id`, and may
    /// return `false` if some identifier was not noted, or two are 2^32 granules or more apart. No clause says what the
    /// builder has after `false`.
    pub fn push(&mut self, id: u64) -> bool
        requires { id % 2 ^ self.old.shift ≡ self.old.low }
        ensures ids { IsTrue result → self.new.ids ≡ self.old.ids ++ id ∷ [] }
        ensures shift { self.new.shift ≡ self.old.shift }
        ensures low { self.new.low ≡ self.old.low }
    {
        self.entries.push(id >> self.bits.shift)
    }

    /// Returns the index of the added objects. Returns `None` if they are fewer than the objects of the [`UsedIds`],
    /// or if their entries do not ascend strictly, as can be only if some identifier was not noted.
    pub fn finish(self) -> Option<IdIndex<A>>
        ensures { IfSome result (λ index. index ≡ self.ids) }
    {
        let bits = self.bits;
        match self.entries.finish() {
            Some(entries) => return Some(IdIndex::of(Form::Narrow(entries), bits)),
            None => return None,
        }
    }
}
