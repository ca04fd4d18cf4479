//! The table of a graph.

ghost use Rattle.std.specs.Prelude.{IfOk, Some, length, ◌≡◌, ℕ};
ghost use Rattle.heap_graph.specs.ObjectGraph.{object_count};
ghost use Rattle.held_table.specs.Table.{IsTable};
ghost use Rattle.label_flow.specs.Flow.{set_of};
ghost use Rattle.label_sets.specs.Sets.{IsWhole};

use crate::joints::joints_of;
use crate::line::{Joint, Line};
use crate::lines::{compare_lines, lines_of};
use crate::plains::plain_numbers;
use heap_graph::Graph;
use histogram::OutOfMemory;
use label_flow::Flow;
use std::alloc::Allocator;

/// The lines of a graph in the order of the text, and what the sets of several labels that they name consist of.
#[derive(Drop)]
pub struct Table<A: Allocator> {
    /// The sets of several labels, in the order of their numbers.
    pub joints: Vec<Joint, A>,
    /// The lines. Lines with more bytes come first; if the bytes are equal, lines with more objects; then lines with
    /// the lesser set; then lines with the lesser row; then lines with the lesser remainder.
    pub lines: Vec<Line, A>,
}

impl<A: Allocator + Copy> Table<A> {
    /// Counts the objects of `graph` by their sets in `flow`, their rows and their remainders. `Err(OutOfMemory)` if an
    /// allocation fails.
    pub fn of<B: Allocator, C: Allocator>(
        alloc: A,
        graph: &Graph<'_, B>,
        flow: &Flow<C>,
    ) -> Result<Table<A>, OutOfMemory>
        requires each { length flow.now.sets ≡ object_count graph.now }
        requires whole { (o s : ℕ) → set_of flow.now o ≡ Some s → IsWhole flow.now.store s }
        ensures { IfOk result (λ t. IsTable graph.now flow.now t.joints.items t.lines.items) }
    {
        let store = flow.store();
        // Called for its clause `within`: each whole set is one of the store.
        let _sets = store.len();
        let plains = plain_numbers(alloc, store)?;
        let mut lines = lines_of(alloc, graph, flow, plains.as_slice())?;
        lines.sort_unstable_by(|a, b| compare_lines(a, b));
        let joints = joints_of(alloc, store, plains.as_slice(), lines.as_slice())?;
        Ok(Table { joints, lines })
    }
}
