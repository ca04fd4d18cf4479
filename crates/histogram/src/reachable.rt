//! The total of the marked objects.

ghost use Rattle.std.specs.Prelude.{◌≡◌};
ghost use Rattle.drain.specs.Marks.{IsMarkingOf};
ghost use Rattle.histogram.specs.Histogram.{marked_objects, total};

use drain::Marked;
use heap_graph::{Graph, RowKey};
use std::alloc::Allocator;

/// Returns the number of marked objects and the sum of their bytes, from the tallies of all rows.
pub(crate) fn reachable<A: Allocator, B: Allocator>(
    graph: &Graph<'_, A>,
    marks: &Marked<B>,
) -> (u64, u64)
    requires { IsMarkingOf graph.now marks.now }
    ensures { result ≡ total graph.now (marked_objects graph.now marks.now.marks) }
{
    // Called for its clause `whole`: a graph has few objects, so neither sum overflows.
    let _objects = graph.len();
    let mut count = 0;
    let mut bytes = 0;
    for number in 0..graph.row_count() {
        let (row_count, row_bytes) = marks.tally(&RowKey::numbered(number));
        count += row_count;
        bytes += row_bytes;
    }
    (count, bytes)
}
