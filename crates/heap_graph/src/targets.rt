//! Iterates over the objects that an object's identifiers name, with the object's row and bytes.

use crate::object_ids::{FieldIds, ObjectIds};
use crate::resolving::target;
use crate::row::RowKey;
use hprof_grammar::Ids;
use id_index::IdIndex;
use std::alloc::Allocator;
use std::marker::Model;

/// A source that yields identifiers one after the other.
pub trait IdSource: Drop {
    ghost use Rattle.std.specs.Prelude.{List, ℕ};
    ghost use Rattle.std.specs.Iterator.{YieldsFirst};

    /// The remaining identifiers.
    ghost ids: { Self → List ℕ };

    /// Returns the next identifier, or `None` after the last.
    fn next_id(&mut self) -> Option<u64>
        ensures { YieldsFirst ids self.old result self.new };
}

/// No identifiers.
#[derive(Drop)]
pub struct NoIds {}

impl IdSource for NoIds {
    ghost use Rattle.std.specs.Prelude.{[]};

    ghost ids = { λ _. [] };

    // Inlined, so that a loop over it compiles to no code.
    #[inline(always)]
    fn next_id(&mut self) -> Option<u64> {
        None
    }
}

impl<'g, A: Allocator> IdSource for FieldIds<'g, A> {
    ghost ids = { λ f. f };

    // Inlined, as `next` is.
    #[inline(always)]
    fn next_id(&mut self) -> Option<u64> {
        self.next()
    }
}

impl<'g> IdSource for Ids<'g> {
    ghost ids = { λ e. e };

    // Inlined, as `next` is.
    #[inline(always)]
    fn next_id(&mut self) -> Option<u64> {
        self.next()
    }
}

impl<'g, A: Allocator> IdSource for ObjectIds<'g, A> {
    ghost ids = { λ h. h };

    // Inlined, as `next` is.
    #[inline(always)]
    fn next_id(&mut self) -> Option<u64> {
        self.next()
    }
}

/// An iterator over the numbers of the objects that identifiers name. The object that holds the identifiers has the row
/// `row` and `bytes` bytes. Counts the identifiers other than 0 that name no object.
#[derive(Drop)]
pub struct Targets<'g, A: Allocator, I: IdSource> {
    pub(crate) index: &'g IdIndex<A>,
    pub(crate) ids: I,
    pub(crate) row: RowKey,
    pub(crate) bytes: u64,
    pub(crate) unresolved: u64,
}

impl<'g, A: Allocator, I: IdSource> Model for Targets<'g, A, I> {
    ghost use Rattle.std.specs.Prelude.{length, map, ◌+◌, ◌^◌, ◌≤◌};
    ghost use Rattle.heap_graph.specs.Walks.{Visited, step_in};

    ghost Value = { Visited };

    ghost view = { λ v. record {
      row = v.row;
      bytes = v.bytes;
      unresolved = v.unresolved;
      left = map (step_in v.index.now) (I.ids v.ids);
    } };

    ghost invariant = { λ v. v.unresolved + length (I.ids v.ids) ≤ 2 ^ 33 };
}

impl<'g, A: Allocator, I: IdSource> Targets<'g, A, I> {
    ghost use Rattle.std.specs.Prelude.{length, map, ◌+◌, ◌^◌, ◌≡◌, ◌≤◌};
    ghost use Rattle.heap_graph.specs.Walks.{step_in};

    /// Creates the iterator over the objects that `ids` name. `row` and `bytes` are those of the object that holds
    /// `ids`. `unresolved` is the number of identifiers passed before `ids` that are not 0 and name no object.
    // Inlined, like everything that makes up a visit.
    #[inline(always)]
    pub(crate) fn new(
        index: &'g IdIndex<A>,
        ids: I,
        row: RowKey,
        bytes: u64,
        unresolved: u64,
    ) -> Self
        requires few { unresolved + length (I.ids ids) ≤ 2 ^ 33 }
        ensures { result ≡ record {
          row = row;
          bytes = bytes;
          unresolved = unresolved;
          left = map (step_in index.now) (I.ids ids);
        } }
    {
        Targets {
            index,
            ids,
            row,
            bytes,
            unresolved,
        }
    }

    /// Returns the row of the object in the histogram.
    pub fn row(&self) -> RowKey
        ensures { result ≡ self.now.row }
    {
        self.row
    }

    /// Returns the bytes of the object.
    pub fn bytes(&self) -> u64
        ensures { result ≡ self.now.bytes }
    {
        self.bytes
    }

    /// Returns the number of identifiers passed so far that are not 0 and name no object.
    pub fn unresolved(&self) -> u64
        ensures { result ≡ self.now.unresolved }
    {
        self.unresolved
    }
}

impl<'g, A: Allocator, I: IdSource> Iterator for Targets<'g, A, I> {
    ghost use Rattle.std.specs.Iterator.{YieldsFirst, item_count};
    ghost use Rattle.heap_graph.specs.Walks.{Advances, references_left};

    type Item = u32;

    ghost next_gives = { λ old object new. YieldsFirst references_left old object new × Advances old object new };

    ghost remaining = { item_count references_left };

    // Inlined into the loops of a worker, one for each source of identifiers.
    #[inline(always)]
    fn next(&mut self) -> Option<u32> {
        while let Some(id) = self.ids.next_id() {
            if let Some(object) = target(self.index, id) {
                return Some(object);
            }
            if id != 0 {
                self.unresolved += 1;
            }
        }
        None
    }
}

/// The iterator for no identifiers.
pub type NoTargets<'g, A> = Targets<'g, A, NoIds>;

/// The iterator for the identifiers in the fields of an instance.
pub type FieldTargets<'g, A> = Targets<'g, A, FieldIds<'g, A>>;

/// The iterator for the identifiers that are the elements of an array.
pub type ElementTargets<'g, A> = Targets<'g, A, Ids<'g>>;

/// The iterator for the identifiers that an object of any kind holds.
pub type ObjectTargets<'g, A> = Targets<'g, A, ObjectIds<'g, A>>;
