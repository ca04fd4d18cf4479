//! An object with its row and its bytes, and the objects that it refers to.

ghost use Rattle.heap_graph.specs.ByKind.{AreByKind};

use crate::named::Named;
use crate::object_ids::{ObjectIds, Rest};
use crate::row::RowKey;
use crate::targets::{ElementTargets, FieldTargets, NoIds, NoTargets, ObjectTargets, Targets};
use id_index::IdIndex;
use std::alloc::Allocator;
use std::marker::Model;

/// An iterator over the numbers of the objects that an object refers to. It has the object's row and bytes, and counts
/// the identifiers other than 0 that name no object. An instance or an object array refers first to its class, which
/// is returned without a look-up if it is known. The other identifiers are read from the bytes and looked up.
#[derive(Drop)]
pub struct Visit<'g, A: Allocator> {
    index: &'g IdIndex<A>,
    /// The class, if it is known without a look-up and was not returned yet.
    class: Option<u32>,
    /// The objects that the other identifiers name.
    rest: ObjectTargets<'g, A>,
}

/// The remaining references of an object. The variant says where the object's identifiers are, so that a caller can
/// have a loop of its own for each. `Nothing`, `Fields` and `Elements` have two parts: the class, if it is known
/// without a look-up and was not returned yet, and an iterator over the objects that the other identifiers name.
// The kinds are not those of objects (`ObjectKind`): an instance is among the `Fields`, or is `Any`.
#[derive(Drop)]
pub enum ByKind<'g, A: Allocator> {
    /// There are no identifiers.
    Nothing(Option<u32>, NoTargets<'g, A>),
    /// The identifiers are in the fields of an instance.
    Fields(Option<u32>, FieldTargets<'g, A>),
    /// The identifiers are the elements of an array.
    Elements(Option<u32>, ElementTargets<'g, A>),
    /// Any other object: a class, or an instance or array whose class is not known without a look-up. Its references
    /// are not here: a new visit yields them.
    Any,
}

impl<'g, A: Allocator> Model for Visit<'g, A> {
    ghost use Rattle.std.specs.Prelude.{IfSome, map, ◌++◌};
    ghost use Rattle.heap_graph.specs.Walks.{Visited, step_in};
    ghost use Rattle.heap_graph.specs.working.Resolving.{IsNamed, known_ids};

    ghost Value = { Visited };

    ghost view = { λ v. record {
      row = v.rest.row;
      bytes = v.rest.bytes;
      unresolved = v.rest.unresolved;
      left = map (step_in v.index.now) (known_ids v.index.now v.class) ++ v.rest.left;
    } };

    ghost invariant = { λ v. IfSome v.class (IsNamed v.index.now) };
}

impl<'g, A: Allocator> Visit<'g, A> {
    ghost use Rattle.std.specs.Prelude.{IfSome, length, map, ◌++◌, ◌^◌, ◌≡◌, ◌≤◌};
    ghost use Rattle.heap_graph.specs.Walks.{step_in};
    ghost use Rattle.heap_graph.specs.working.Resolving.{IsNamed, known_ids};

    /// Creates a visit that yields `class`, if it is known, and then the objects that `ids` name. `row` and `bytes` are
    /// those of the object.
    // Inlined, like everything that makes up a visit.
    #[inline(always)]
    pub(crate) fn new(
        index: &'g IdIndex<A>,
        class: Option<u32>,
        ids: ObjectIds<'g, A>,
        row: RowKey,
        bytes: u64,
    ) -> Self
        requires few { length (known_ids index.now class ++ ids) ≤ 2 ^ 33 }
        requires class { IfSome class (IsNamed index.now) }
        ensures { result ≡ record {
          row = row;
          bytes = bytes;
          unresolved = 0;
          left = map (step_in index.now) (known_ids index.now class ++ ids.entry);
        } }
    {
        Visit {
            index,
            class,
            rest: Targets::new(index, ids, row, bytes, 0),
        }
    }

    /// Returns the row of the object in the histogram.
    pub fn row(&self) -> RowKey
        ensures { result ≡ self.now.row }
    {
        self.rest.row()
    }

    /// Returns the bytes of the object.
    pub fn bytes(&self) -> u64
        ensures { result ≡ self.now.bytes }
    {
        self.rest.bytes()
    }

    /// Returns the number of identifiers passed so far that are not 0 and name no object. After `next` has returned
    /// `None`, all such identifiers of the object have been counted.
    pub fn unresolved(&self) -> u64
        ensures { result ≡ self.now.unresolved }
    {
        self.rest.unresolved()
    }

    /// Returns the number of identifiers of the object that were not passed yet, including those that are 0 or name no
    /// object.
    pub(crate) fn left(&self) -> u64
        ensures { result ≡ length self.now.left }
    {
        let others = self.rest.ids.len();
        match self.class {
            Some(_) => return others + 1,
            None => return others,
        }
    }

    /// Returns an iterator over what the remaining identifiers of the object name, with an item for each.
    // Inlined, as `by_kind` is.
    #[inline(always)]
    pub fn named(self) -> Named<'g, A>
        ensures { result ≡ self.entry.left }
    {
        let Visit {
            index: known,
            class,
            rest,
        } = self;
        let Targets { index, ids, .. } = rest;
        Named::new(known, class, index, ids)
    }

    /// Returns the remaining references of the object, with a variant for where its identifiers are.
    // Inlined, so that the loop over each variant has the parts of the walk in place.
    #[inline(always)]
    pub fn by_kind(self) -> ByKind<'g, A>
        ensures { AreByKind self.entry result }
    {
        let Visit { class, rest, .. } = self;
        let Targets {
            index,
            ids,
            row,
            bytes,
            unresolved,
        } = rest;
        match ids.rest {
            Rest::Nothing => {
                let none = Targets::new(index, NoIds {}, row, bytes, unresolved);
                ByKind::Nothing(class, none)
            }
            Rest::Fields(ids) => {
                let fields = Targets::new(index, ids, row, bytes, unresolved);
                ByKind::Fields(class, fields)
            }
            Rest::Elements(ids) => {
                let elements = Targets::new(index, ids, row, bytes, unresolved);
                ByKind::Elements(class, elements)
            }
            _ => ByKind::Any,
        }
    }
}

impl<'g, A: Allocator> Iterator for Visit<'g, A> {
    ghost use Rattle.std.specs.Iterator.{YieldsFirst, item_count};
    ghost use Rattle.heap_graph.specs.Walks.{Advances, references_left};

    type Item = u32;

    ghost next_gives = { λ old object new. YieldsFirst references_left old object new × Advances old object new };

    ghost remaining = { item_count references_left };

    // Inlined, as the walk over the identifiers after the class is.
    #[inline(always)]
    fn next(&mut self) -> Option<u32> {
        if let Some(class) = self.class {
            self.class = None;
            return Some(class);
        }
        self.rest.next()
    }
}
