//! The index of objects by extents.

ghost use Rattle.std.specs.Prelude.{position, ◌==◌, ◌≡◌};
ghost use Rattle.id_index.specs.Repeats.{IsFirstRepeat};

use crate::beginnings::Beginnings;
use crate::extent_look_up::first_bearer;
use crate::extents::Extent;
use crate::look_up::LookUp;
use std::alloc::Allocator;
use std::marker::Model;

/// The objects by their identifiers, out of which the lowest bits are shifted.
#[derive(Drop)]
pub(crate) struct ExtentIndex<A: Allocator> {
    /// The kept extents, in ascending order, and after them the others. An extent is kept if it has an object at a
    /// granule where no earlier extent of its page has one.
    pub(crate) extents: Vec<Extent, A>,
    /// The number of kept extents.
    pub(crate) kept: usize,
    pub(crate) beginnings: Beginnings<A>,
    /// The number of objects.
    pub(crate) count: u32,
    /// The number of the first object whose identifier an earlier one bears, or `count` if there is none.
    pub(crate) repeat: u32,
}

impl<A: Allocator> Model for ExtentIndex<A> {
    ghost use Rattle.std.specs.Prelude.{List, length, take, ◌≤◌, ℕ};
    ghost use Rattle.id_index.specs.working.Beginnings.{AreBeginnings};
    ghost use Rattle.id_index.specs.Repeats.{IsFirstRepeat};
    ghost use Rattle.id_index.specs.working.Extents.{AreAscending, AreFewAPage, Tell, ids_of_extents};

    ghost Value = { List ℕ };

    ghost view = { λ i. ids_of_extents i.extents.items i.count };

    ghost invariant = { λ i. record {
      within : i.kept ≤ length i.extents.items;
      extents : AreAscending (take i.kept i.extents.items);
      few : AreFewAPage (take i.kept i.extents.items);
      tell : Tell (take i.kept i.extents.items) (ids_of_extents i.extents.items i.count);
      begun : AreBeginnings (take i.kept i.extents.items) i.beginnings;
      repeated : IsFirstRepeat (ids_of_extents i.extents.items i.count) i.repeat;
    } };
}

impl<A: Allocator> ExtentIndex<A> {
    /// Looks up the first object that bears `id`. The probes are extents.
    // Inlined, as the `find` of an index is, which only forwards to this.
    #[inline(always)]
    pub(crate) fn look_up(&self, id: u64) -> LookUp
        ensures { result.number ≡ position (λ x. x == id) self.now }
    {
        first_bearer(&self.extents[..self.kept], &self.beginnings, id)
    }

    /// Returns the number of the first object whose identifier an earlier one bears, or the number of objects if there
    /// is no such object.
    pub(crate) fn first_repeat(&self) -> usize
        ensures { IsFirstRepeat self.now result }
    {
        self.repeat as usize
    }
}
