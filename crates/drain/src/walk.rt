//! What marking requires of a graph.

use crate::measured::Measured;
use crate::scanned_object::ScannedObject;
use heap_graph::Visit;
use std::alloc::Allocator;

/// The objects that an object refers to, one after the other, and what is read of the object on the way. The object's
/// class is skipped if it is known without a look-up.
pub trait Reads: Iterator<Item = u32> + Drop + Send {
    ghost use Rattle.std.specs.Prelude.{◌≡◌};
    ghost use Rattle.drain.specs.declared.scanned_object.ScannedObject.{ScannedObject};

    /// What has been read of the object so far.
    ghost read_so_far: { Self → ScannedObject };

    /// Returns what has been read of the object so far. After the last reference the result is complete.
    fn read(&self) -> ScannedObject
        ensures { result ≡ read_so_far self.now };
}

/// A graph whose roots and references can be walked by many workers at a time.
pub trait Walk: Measured + Sync {
    ghost use Rattle.std.specs.Prelude.{◌≡◌, ◌<◌, All, Contains};
    ghost use Rattle.drain.specs.working.Walk.{IsVisitOf};

    /// The allocator of the index of the graph's objects.
    type Alloc: Allocator + Sync;

    /// Returns the roots, in some order and possibly with repeats.
    fn roots(&self) -> &[u32]
        ensures value { result.now ≡ Self.roots self.now }
        ensures within { All (λ o. o < Self.count self.now) (Self.roots self.now) };

    /// Returns the objects that `object` refers to, in some order and possibly with repeats, and what is read of it on
    /// the way.
    fn visit(&self, object: u32) -> Visit<'_, Self::Alloc>
        requires { object < Self.count self.now }
        ensures { IsVisitOf (λ next. Contains (Self.pairs self.now) (object, next)) (Self.count self.now)
            (Self.measure self.now) object result };
}
