//! The result of a marking.

use crate::tally::Tally;
use crate::worker_threads::RefusedThread;
use buffer_pool::{Marks, SpentTag};
use heap_graph::RowKey;
use std::alloc::{AllocError, Allocator};
use std::marker::Model;
use thiserror::Error;
use work_pair::Stop;

/// Why a graph was not marked.
#[derive(Clone, Copy, Debug, PartialEq, Eq, Error)]
pub enum RunFault {
    /// An allocation failed: before any thread was started, or for the spill list of a worker, or of the leader, that
    /// found no empty buffer for an object.
    #[error("out of memory")]
    OutOfMemory,
    /// A stack's last tag was loaded when the stack's head was to be exchanged. The token shows that it was loaded.
    #[error("a stack's last tag was loaded")]
    TagSpent(SpentTag),
    /// A worker's thread could not be started. The token shows that it was refused.
    #[error("a worker could not be started")]
    WorkerRefused(RefusedThread),
}

impl From<AllocError> for RunFault {
    ghost use Rattle.drain.specs.declared.marked.RunFault.TheVariants.{OutOfMemory};
    ghost use Rattle.std.specs.Prelude.{◌≡◌};

    ghost from_gives = { λ _ e. e ≡ OutOfMemory };

    fn from(_e: AllocError) -> RunFault {
        RunFault::OutOfMemory
    }
}

impl From<Stop> for RunFault {
    ghost use Rattle.drain.specs.Stops.{stopped};
    ghost use Rattle.std.specs.Prelude.{◌≡◌};

    ghost from_gives = { λ stop e. e ≡ stopped stop };

    fn from(stop: Stop) -> RunFault {
        match stop {
            Stop::TagSpent(token) => RunFault::TagSpent(token),
            Stop::OutOfMemory => RunFault::OutOfMemory,
        }
    }
}

/// The marks of a graph's objects, for each row the number of its marked objects and their bytes, and how many
/// identifiers in marked objects are unresolved.
#[derive(Drop)]
pub struct Marked<A: Allocator> {
    marks: Marks<A>,
    objects: u32,
    tally: Tally<A>,
}

impl<A: Allocator> Model for Marked<A> {
    ghost use Rattle.std.specs.Prelude.{length, map, ◌≡◌};
    ghost use Rattle.drain.specs.Marks.{AreFinished, MarkedObjects, is_set};

    ghost Value = { MarkedObjects };

    ghost view = { λ m. record {
      marks = map is_set m.marks;
      sums = m.tally.rows.items;
      unresolved = m.tally.unresolved;
    } };

    ghost invariant = { λ m. (m.objects ≡ length m.marks) × AreFinished m.marks };
}

impl<A: Allocator> Marked<A> {
    ghost use Rattle.std.specs.Prelude.{◌≡◌, ◌↔◌, ◌-◌, IsTrue, count_by, false, find, length, map, not, slice_index_or};
    ghost use Rattle.std.specs.List.{range_with_len};
    ghost use Rattle.heap_graph.specs.Reachable.{IsMarked};
    ghost use Rattle.drain.specs.Marks.{AreFinished, MarkedObjects, is_set};
    ghost use Rattle.drain.specs.Sums.{sum_of_row};

    /// Creates the result from the `marks` of `objects` objects and the `tally` of the marked ones.
    pub(crate) fn new(marks: Marks<A>, objects: u32, tally: Tally<A>) -> Self
        requires objects { objects ≡ length marks }
        requires finished { AreFinished marks }
        ensures { let m : MarkedObjects = record {
          marks = map is_set marks;
          sums = tally.rows.items;
          unresolved = tally.unresolved;
        } in result ≡ m }
    {
        Marked {
            marks,
            objects,
            tally,
        }
    }

    /// Tests whether `object` is marked. Returns false if no object has this number.
    pub fn is_marked(&self, object: u32) -> bool
        ensures { IsTrue result ↔ IsMarked self.now.marks object }
    {
        object < self.objects && self.marks.is_claimed(object)
    }

    /// Returns the first object from `from` on that is not marked, or `None` if each of them is marked.
    pub fn next_unmarked(&self, from: u32) -> Option<u32>
        ensures { result ≡ find (λ o. not (slice_index_or self.now.marks o false))
            (range_with_len from (length self.now.marks - from)) }
    {
        self.marks.next_unfinished(from)
    }

    /// Returns the number of marked objects.
    pub fn len(&self) -> u64
        ensures { result ≡ count_by (λ m. m) self.now.marks }
    {
        self.marks.finished_len()
    }

    /// Returns the number of marked objects of `row` and the sum of their bytes. Both are 0 if no marked object has
    /// this row.
    pub fn tally(&self, row: &RowKey) -> (u64, u64)
        ensures { result ≡ sum_of_row self.now.sums row.now }
    {
        match *row {
            RowKey::Primitive(code) if !(4..=11).contains(&code) => (0, 0),
            row => self.tally.told_at(row.number()),
        }
    }

    /// Returns how many identifiers in marked objects are unresolved: other than 0, and the identifier of no object.
    pub fn unresolved(&self) -> u64
        ensures { result ≡ self.now.unresolved }
    {
        self.tally.unresolved
    }
}
