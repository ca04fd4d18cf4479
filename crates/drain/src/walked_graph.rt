//! The graph of a heap dump, as marking walks it.

ghost use Rattle.std.specs.Prelude.{◌≡◌};
ghost use Rattle.heap_graph.specs.RowNumbers as numbers;

use crate::measured::Measured;
use crate::scanned_object::ScannedObject;
use crate::walk::{Reads, Walk};
use buffer_pool::Edges;
use heap_graph::{Graph, IdSource, RowKey, Targets, Visit};
use std::alloc::Allocator;

/// A graph of bytes that live for `'b`, with the roots and references that marking walks.
#[derive(Drop)]
pub struct WalkedGraph<'a, 'b, A: Allocator> {
    /// The graph of the dump.
    pub graph: &'a Graph<'b, A>,
}

impl<'a, 'b, A: Allocator> Edges for WalkedGraph<'a, 'b, A> {
    ghost use Rattle.heap_graph.specs.ObjectGraph.{object_count};
    ghost use Rattle.drain.specs.working.Pairs.{pairs_of};

    ghost count = { λ l. object_count l.graph.now };

    ghost roots = { λ l. l.graph.now.roots };

    ghost pairs = { λ l. pairs_of l.graph.now };

    fn objects(&self) -> u32 {
        self.graph.len()
    }
}

impl<'a, 'b, A: Allocator> Measured for WalkedGraph<'a, 'b, A> {
    ghost use Rattle.drain.specs.working.Measures.{measure_of};

    ghost measure = { λ l. measure_of l.graph.now };

    fn recall_measure(&self) {
        // `len` is called only for its clause `whole`, which bounds the graph's rows, bytes and identifiers.
        let _objects = self.graph.len();
    }

    fn rows(&self) -> usize {
        self.graph.row_count()
    }
}

/// Returns what a tally counts of an object: its row, its size, and how many of its identifiers name no object.
// Inlined, like all that a visit reports: a call would write the three words of its result, and its caller would read
// them again.
#[inline(always)]
fn scanned(row: RowKey, bytes: u64, unresolved: u64) -> ScannedObject
    ensures { result ≡ record { row = numbers.row_number row; bytes = bytes; unresolved = unresolved } }
{
    ScannedObject {
        row: row.number(),
        bytes,
        unresolved,
    }
}

impl<'a, A: Allocator + Sync> Reads for Visit<'a, A> {
    ghost use Rattle.drain.specs.working.Measures.{scanned_in};

    ghost read_so_far = { scanned_in };

    fn read(&self) -> ScannedObject {
        scanned(self.row(), self.bytes(), self.unresolved())
    }
}

impl<'a, A: Allocator + Sync, I: IdSource + Send> Reads for Targets<'a, A, I> {
    ghost use Rattle.drain.specs.working.Measures.{scanned_in};

    ghost read_so_far = { scanned_in };

    fn read(&self) -> ScannedObject {
        scanned(self.row(), self.bytes(), self.unresolved())
    }
}

impl<'a, 'b, A: Allocator + Sync> Walk for WalkedGraph<'a, 'b, A> {
    type Alloc = A;

    fn roots(&self) -> &[u32] {
        self.graph.roots()
    }

    // Inlined, so that the kind of the object is known where a worker's loop begins.
    #[inline(always)]
    fn visit(&self, object: u32) -> Visit<'_, A> {
        self.graph.visit(object)
    }
}
