//! The marks of single objects.

ghost use Rattle.std.specs.Prelude.{false, slice_index_or, ◌≡◌};

use crate::marks::Marks;
use std::alloc::Allocator;

/// The marks of single objects, by their numbers.
#[derive(Drop)]
pub(crate) struct ObjectMarks<A: Allocator> {
    /// The marks. The key is an object's number.
    pub(crate) marks: Marks<A>,
    /// For each object whether it has marks of its own.
    pub(crate) has: Vec<bool, A>,
}

impl<A: Allocator> ObjectMarks<A> {
    /// Tests whether `object` has marks of its own.
    pub(crate) fn has(&self, object: u32) -> bool
        ensures { result ≡ slice_index_or self.now.has.items object false }
    {
        match self.has.get(object as usize) {
            Some(has) => *has,
            None => false,
        }
    }
}
