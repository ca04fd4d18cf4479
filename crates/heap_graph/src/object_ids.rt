//! The identifiers that an object holds, read from the bytes one after the other.

mod class_ids;
mod field_ids;

pub(crate) use self::class_ids::ClassIds;
pub use self::field_ids::FieldIds;
use hprof_grammar::Ids;
use std::alloc::Allocator;
use std::marker::Model;
use std::mem;

/// The source of the remaining identifiers, by the kind of the object. An instance or array whose class remains has
/// a variant of its own, instead of a further field for the class, so that a walk fits into 128 bytes.
#[derive(Drop)]
pub(crate) enum Rest<'g, A: Allocator> {
    /// No identifiers: the object is a primitive array.
    Nothing,
    /// The identifiers of a class.
    OfClass(ClassIds<'g>),
    /// The class of an instance, followed by its fields.
    InstanceWithClass(u64, FieldIds<'g, A>),
    /// The fields of an instance.
    Fields(FieldIds<'g, A>),
    /// The class of an array, followed by its elements.
    ArrayWithClass(u64, Ids<'g>),
    /// The elements of an array.
    Elements(Ids<'g>),
}

/// The remaining identifiers of those that an object holds.
#[derive(Drop)]
pub struct ObjectIds<'g, A: Allocator> {
    pub(crate) rest: Rest<'g, A>,
}

impl<'g, A: Allocator> Model for ObjectIds<'g, A> {
    ghost use Rattle.std.specs.Prelude.{List, length, ℕ, ◌^◌, ◌≤◌};
    ghost use Rattle.heap_graph.specs.working.Rests.{rest_ids};

    ghost Value = { List ℕ };

    ghost view = { λ h. rest_ids h.rest };

    ghost invariant = { λ h. length (rest_ids h.rest) ≤ 2 ^ 33 };
}

impl<'g, A: Allocator> ObjectIds<'g, A> {
    ghost use Rattle.std.specs.Prelude.{length, ◌≡◌};

    /// Returns the number of remaining identifiers.
    pub(crate) fn len(&self) -> u64
        ensures { result ≡ length self.now }
    {
        match &self.rest {
            Rest::Nothing => return 0,
            Rest::OfClass(ids) => return ids.len(),
            Rest::InstanceWithClass(_, ids) => return ids.len() + 1,
            Rest::Fields(ids) => return ids.len(),
            Rest::ArrayWithClass(_, ids) => return ids.len() as u64 + 1,
            Rest::Elements(ids) => return ids.len() as u64,
        }
    }
}

impl<'g, A: Allocator> Iterator for ObjectIds<'g, A> {
    ghost use Rattle.std.specs.Iterator.{YieldsFirst, item_count};

    type Item = u64;

    ghost next_gives = { YieldsFirst (λ h. h) };

    ghost remaining = { item_count (λ h. h) };

    // Inlined into the loop of a worker, where nearly all objects have fields, elements or nothing. With more variants
    // here, one indirect jump would choose among them, and this jump is mispredicted when objects of several kinds
    // alternate.
    #[inline(always)]
    fn next(&mut self) -> Option<u64> {
        match &mut self.rest {
            Rest::Nothing => return None,
            Rest::Fields(ids) => return ids.next(),
            Rest::Elements(ids) => return ids.next(),
            _ => {}
        }
        self.next_of_any()
    }
}

impl<'g, A: Allocator> ObjectIds<'g, A> {
    ghost use Rattle.std.specs.Iterator.{YieldsFirst};

    /// Returns the next identifier, whatever the kind of the object.
    // Not inlined, so that the worker's loop has no code for the few objects that need this function.
    #[inline(never)]
    fn next_of_any(&mut self) -> Option<u64>
        ensures { YieldsFirst (λ h. h) self.old result self.new }
    {
        match &mut self.rest {
            Rest::Nothing => return None,
            Rest::OfClass(ids) => return ids.next(),
            Rest::Fields(ids) => return ids.next(),
            Rest::Elements(ids) => return ids.next(),
            _ => {}
        }
        match mem::replace(&mut self.rest, Rest::Nothing) {
            Rest::InstanceWithClass(class, fields) => {
                self.rest = Rest::Fields(fields);
                return Some(class);
            }
            Rest::ArrayWithClass(class, elements) => {
                self.rest = Rest::Elements(elements);
                return Some(class);
            }
            _ => return None,
        }
    }
}
