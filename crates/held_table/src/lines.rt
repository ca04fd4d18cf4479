//! The lines of a graph.

ghost use Rattle.std.specs.Prelude.{All, IfOk, Some, length, ◌<◌, ◌≡◌, ℕ};
ghost use Rattle.std.specs.List.{range_with_len};
ghost use Rattle.heap_graph.specs.ObjectGraph.{object_count};
ghost use Rattle.heap_graph.specs.RowNumbers.{row_count};
ghost use Rattle.held_table.specs.Tally.{IsTally, compare};
ghost use Rattle.held_table.specs.working.Plains.{ArePlains, IsShown, shown_by};
ghost use Rattle.label_flow.specs.Flow.{set_of};

use crate::line::{Key, Line};
use crate::tally::Tally;
use heap_graph::Graph;
use histogram::OutOfMemory;
use label_flow::Flow;
use std::alloc::Allocator;
use std::cmp::Ordering;

/// Returns the lines of the objects of `graph` that have a set in `flow`, in no order. `plains` has for each set the
/// number under which it is shown.
pub(crate) fn lines_of<A: Allocator + Copy, B: Allocator, C: Allocator>(
    alloc: A,
    graph: &Graph<'_, B>,
    flow: &Flow<C>,
    plains: &[u32],
) -> Result<Vec<Line, A>, OutOfMemory>
    requires each { length flow.now.sets ≡ object_count graph.now }
    requires sets { (o s : ℕ) → set_of flow.now o ≡ Some s → s < length plains.now }
    requires plains { ArePlains flow.now.store (length plains.now) plains.now }
    ensures tally { IfOk result (λ v.
        IsTally graph.now (shown_by flow.now plains.now) (range_with_len 0 (object_count graph.now)) v.items) }
    ensures shown { IfOk result (λ v.
        All (λ l. IsShown graph.now flow.now.store (length plains.now) l.set l.row) v.items) }
{
    let mut tally = Tally::new(alloc);
    for object in 0..graph.len() {
        if let Some(set) = flow.set_of(object) {
            let visit = graph.visit(object);
            let bytes = visit.bytes();
            let key = Key {
                set: plains[set.number as usize],
                row: visit.row().number(),
                remainder: (bytes % 16) as u32,
            };
            tally.add(key, bytes)?;
        }
    }
    Ok(tally.lines)
}

/// Compares two lines. The line with more bytes comes first; if the bytes are equal, the line with more objects; then
/// the line with the lesser set; then the line with the lesser row; then the line with the lesser remainder.
pub(crate) fn compare_lines(a: &Line, b: &Line) -> Ordering
    ensures { result ≡ compare a.now b.now }
{
    let by_row = a.row.cmp(&b.row).then(a.remainder.cmp(&b.remainder));
    let by_key = a.set.cmp(&b.set).then(by_row);
    b.bytes
        .cmp(&a.bytes)
        .then(b.count.cmp(&a.count).then(by_key))
}
