//! The index of objects by their identifiers, which agree in their lowest bits, and its builder for objects that are
//! mostly in order. Extents and narrow entries are made of the bits above those, so that the pages of objects at
//! multiples of eight are dense.

ghost use Rattle.std.specs.Prelude.{Contains, IfOk, IsTrue, [], length, position, take};
ghost use Rattle.std.specs.Prelude.{◌==◌, ◌≡◌, ◌↔◌, ◌%◌, ◌+◌, ◌++◌, ◌∷◌, ◌<◌, ◌^◌};
ghost use Rattle.id_index.specs.Aligned.{whole_ids};
ghost use Rattle.id_index.specs.Repeats.{IsFirstRepeat};

use crate::extent_index::ExtentIndex;
use crate::extent_index_builder::ExtentIndexBuilder;
use crate::look_up::LookUp;
use crate::narrow_entries::NarrowIndex;
use crate::wide_entries::WideIndex;
use crate::{extent_look_up, narrow_entries, wide_entries};
use std::alloc::{AllocError, Allocator};
use std::marker::Model;

/// The lowest bits that identifiers have in common.
#[derive(Clone, Copy)]
pub struct LowBits {
    /// The number of these bits, 0 to 63.
    pub shift: u32,
    /// Their value, below 2^shift.
    pub low: u64,
}

/// What an index searches.
#[derive(Drop)]
pub(crate) enum Form<A: Allocator> {
    /// Extents of neighbours.
    Extents(ExtentIndex<A>),
    /// Entries of numbers and of identifiers as distances from the least one.
    Narrow(NarrowIndex<A>),
    /// Entries of whole identifiers and numbers.
    Wide(WideIndex<A>),
}

/// The objects by their identifiers. Objects are numbered from 0 in the order of the file, and an identifier names the
/// first object that bears it. No look-up takes memory.
#[derive(Drop)]
pub struct IdIndex<A: Allocator> {
    form: Form<A>,
    bits: LowBits,
    /// A word in which only the lowest `bits.shift` bits are set. It is made once, not for each look-up.
    mask: u64,
}

impl<A: Allocator> Model for IdIndex<A> {
    ghost use Rattle.std.specs.Prelude.{List, ℕ, ◌-◌, ◌<◌, ◌^◌, ◌≡◌};
    ghost use Rattle.id_index.specs.Aligned.{whole_ids};
    ghost use Rattle.id_index.specs.Forms.{ids_held};

    ghost Value = { List ℕ };

    ghost view = { λ i. whole_ids i.bits.shift i.bits.low (ids_held i.form) };

    ghost invariant = { λ i. record {
      shifted : i.bits.shift < 64;
      low : i.bits.low < 2 ^ i.bits.shift;
      mask : i.mask ≡ 2 ^ i.bits.shift - 1;
    } };
}

impl<A: Allocator> IdIndex<A> {
    ghost use Rattle.id_index.specs.Forms.{ids_held};

    /// Creates the index of the objects in `form`, whose identifiers have the lowest bits `bits`. `form` has the bits
    /// above those.
    pub(crate) fn of(form: Form<A>, bits: LowBits) -> Self
        requires shifted { bits.shift < 64 }
        requires low { bits.low < 2 ^ bits.shift }
        ensures { result ≡ whole_ids bits.shift bits.low (ids_held form) }
    {
        IdIndex {
            form,
            bits,
            mask: (1 << bits.shift) - 1,
        }
    }

    /// Looks up the first object that bears `id`, and counts the extents or entries that it reads. For tests: `find` is
    /// made of it.
    // Inlined, as `find` is.
    #[inline(always)]
    pub fn look_up(&self, id: u64) -> LookUp
        ensures { result.number ≡ position (λ x. x == id) self.now }
    {
        if id & self.mask != self.bits.low {
            return LookUp::nothing();
        }
        match &self.form {
            Form::Extents(extents) => return extents.look_up(id >> self.bits.shift),
            Form::Narrow(entries) => return entries.look_up(id >> self.bits.shift),
            Form::Wide(entries) => return entries.look_up(id >> self.bits.shift),
        }
    }

    /// Returns the number of the first object that bears `id`, or `None` if no object does.
    // Inlined into a worker's loop, which looks up each reference that is not 0.
    #[inline(always)]
    pub fn find(&self, id: u64) -> Option<u32>
        ensures { result ≡ position (λ x. x == id) self.now }
    {
        self.look_up(id).number
    }

    /// Tests whether an object bears `id` and is found by a guess: without a search, or among entries of whole
    /// identifiers by a short one. Reads the probes of the look-up itself. For tests: only time rests on guesses.
    pub fn is_guessed(&self, id: u64) -> bool
        ensures { IsTrue result → Contains self.now id }
    {
        let most = match &self.form {
            Form::Extents(_) => extent_look_up::GUESSED,
            Form::Narrow(_) => narrow_entries::GUESSED,
            Form::Wide(_) => wide_entries::GUESSED,
        };
        let is_short = self.look_up(id).probes <= most;
        match self.find(id) {
            Some(_) => return is_short,
            None => return false,
        }
    }

    /// Tests whether an object before number `number` bears `id`.
    pub fn is_repeated(&self, id: u64, number: usize) -> bool
        ensures { IsTrue result ↔ Contains (take number self.now) id }
    {
        match self.find(id) {
            Some(first) => return (first as usize) < number,
            None => return false,
        }
    }

    /// Returns the number of the first object whose identifier an earlier one bears, or the number of objects if there
    /// is no such object.
    pub fn first_repeat(&self) -> usize
        ensures { IsFirstRepeat self.now result }
    {
        match &self.form {
            Form::Extents(extents) => return extents.first_repeat(),
            Form::Narrow(entries) => return entries.first_repeat(),
            Form::Wide(entries) => return entries.first_repeat(),
        }
    }
}

/// The identifiers of objects, which agree in their lowest bits, in the order of the file. An index is made of them.
/// There are at most 2^32 - 1 objects.
#[derive(Drop)]
pub struct IdIndexBuilder<A: Allocator> {
    extents: ExtentIndexBuilder<A>,
    bits: LowBits,
}

impl<A: Allocator> Model for IdIndexBuilder<A> {
    ghost use Rattle.std.specs.Prelude.{◌<◌, ◌^◌};
    ghost use Rattle.id_index.specs.Aligned.{AlignedIds, whole_ids};

    ghost Value = { AlignedIds };

    ghost view = { λ b. record {
      ids = whole_ids b.bits.shift b.bits.low b.extents;
      shift = b.bits.shift;
      low = b.bits.low;
    } };

    ghost invariant = { λ b. record {
      shifted : b.bits.shift < 64;
      low : b.bits.low < 2 ^ b.bits.shift;
    } };
}

impl<A: Allocator> IdIndexBuilder<A> {
    /// Creates a builder without an object, for identifiers with the lowest bits `bits`. Allocates nothing.
    pub fn new(alloc: A, bits: LowBits) -> Self
        requires shifted { bits.shift < 64 }
        requires low { bits.low < 2 ^ bits.shift }
        ensures ids { result.ids ≡ [] }
        ensures shift { result.shift ≡ bits.shift }
        ensures low { result.low ≡ bits.low }
    {
        IdIndexBuilder {
            extents: ExtentIndexBuilder::new(alloc),
            bits,
        }
    }

    /// Tests whether `id` has the lowest bits that all identifiers have.
    pub fn fits(&self, id: u64) -> bool
        ensures { IsTrue result ↔ (id % 2 ^ self.now.shift ≡ self.now.low) }
    {
        id % (1 << self.bits.shift) == self.bits.low
    }

    /// Adds the next object, which has the identifier `id`. Allocates only if the object begins an extent. `AllocError`
    /// if an allocation fails; no clause says what the builder has then.
    pub fn push(&mut self, id: u64) -> Result<(), AllocError>
        requires fits { id % 2 ^ self.old.shift ≡ self.old.low }
        requires few { length self.old.ids + 1 < 2 ^ 32 }
        ensures ids { IfOk result (λ _. self.new.ids ≡ self.old.ids ++ id ∷ []) }
        ensures shift { self.new.shift ≡ self.old.shift }
        ensures low { self.new.low ≡ self.old.low }
    {
        self.extents.push(id >> self.bits.shift)
    }

    /// Adds the objects of `other`, which has the same lowest bits, after those of `self`. `AllocError` if an
    /// allocation fails; no clause says what the builder has then.
    pub fn append(&mut self, other: Self) -> Result<(), AllocError>
        requires shift { other.shift ≡ self.old.shift }
        requires low { other.low ≡ self.old.low }
        requires few { length self.old.ids + length other.ids < 2 ^ 32 }
        ensures ids { IfOk result (λ _. self.new.ids ≡ self.old.ids ++ other.ids) }
        ensures shift { self.new.shift ≡ self.old.shift }
        ensures low { self.new.low ≡ self.old.low }
    {
        self.extents.append(other.extents)
    }

    /// Returns the index of the added objects. `AllocError` if an allocation fails: for the last extent, for sorting
    /// the extents, or for the table of where pages begin, which is taken from `alloc`.
    pub fn finish(self, alloc: A) -> Result<IdIndex<A>, AllocError>
        ensures { IfOk result (λ index. index ≡ self.ids) }
    {
        let bits = self.bits;
        let extents = self.extents.finish(alloc)?;
        Ok(IdIndex::of(Form::Extents(extents), bits))
    }
}
