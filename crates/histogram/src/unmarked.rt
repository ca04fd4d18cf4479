//! The totals of the objects that are not marked.

ghost use Rattle.std.specs.Prelude.{◌≡◌, ◌<◌, ◌+◌, ◌^◌, [], ◌∷◌, IfOk, length};
ghost use Rattle.heap_graph.specs.ObjectGraph.{object_count};
ghost use Rattle.heap_graph.specs.Whole.{unresolved_among};
ghost use Rattle.histogram.specs.Histogram.{total, unmarked_objects};
ghost use Rattle.histogram.specs.working.Unmarked.{AddUp, AreGraphObjects, both, totals_of};

use crate::unmarked_numbers::UnmarkedNumbers;
use drain::Marked;
use heap_graph::Graph;
use hprof_grammar::Team;
use std::alloc::{AllocError, Allocator};
use std::thread::Threads;

/// The totals of some objects.
#[derive(Clone, Copy)]
pub(crate) struct Unmarked {
    /// The number of objects.
    pub(crate) count: u64,
    /// The sum of their bytes.
    pub(crate) bytes: u64,
    /// The number of identifiers other than 0 that they hold and that name no object.
    pub(crate) unresolved: u64,
}

impl Unmarked {
    /// The totals of no object.
    const NONE: Unmarked = Unmarked {
        count: 0,
        bytes: 0,
        unresolved: 0,
    };

    /// Returns the totals of `object` alone, by one walk over its references.
    fn of<A: Allocator>(graph: &Graph<'_, A>, object: u32) -> Unmarked
        requires { object < object_count graph.now }
        ensures { result ≡ totals_of graph.now (object ∷ []) }
    {
        let mut visit = graph.visit(object);
        while visit.next().is_some() {}
        Unmarked {
            count: 1,
            bytes: visit.bytes(),
            unresolved: visit.unresolved(),
        }
    }

    /// Returns the sums of these totals and of those of `others`.
    fn and(self, others: Unmarked) -> Unmarked
        requires { AddUp self others }
        ensures { result ≡ both self others }
    {
        Unmarked {
            count: self.count + others.count,
            bytes: self.bytes + others.bytes,
            unresolved: self.unresolved + others.unresolved,
        }
    }
}

/// Counts the objects that are not marked, by a walk over each. If there are many (`Team::splits`), takes them in
/// batches, and `team` counts each batch in parts (`Team::map_parts`). If there are few, or if an allocation fails,
/// takes one object after the other, from the first on.
pub(crate) fn count_unmarked<
    T: Threads + Sync,
    A: Allocator + Copy + Send,
    B: Allocator + Sync,
    C: Allocator,
>(team: &Team<'_, T>, alloc: A, graph: &Graph<'_, B>, marks: &Marked<C>) -> Unmarked
    requires { length marks.now.marks ≡ object_count graph.now }
    ensures total { (result.count, result.bytes) ≡ total graph.now (unmarked_objects graph.now marks.now.marks) }
    ensures unresolved { result.unresolved ≡ unresolved_among graph.now (unmarked_objects graph.now marks.now.marks) }
{
    let unmarked = u64::from(graph.len()).saturating_sub(marks.len());
    if team.splits(unmarked as usize) {
        if let Ok(left) = count_in_batches(team, alloc, graph, marks) {
            return left;
        }
    }
    count_in_turn(graph, marks)
}

/// Counts the objects that are not marked, one batch after the other. `Err(AllocError)` if an allocation fails.
fn count_in_batches<
    T: Threads + Sync,
    A: Allocator + Copy + Send,
    B: Allocator + Sync,
    C: Allocator,
>(
    team: &Team<'_, T>,
    alloc: A,
    graph: &Graph<'_, B>,
    marks: &Marked<C>,
) -> Result<Unmarked, AllocError>
    requires { length marks.now.marks ≡ object_count graph.now }
    ensures { IfOk result (λ left. left ≡ totals_of graph.now (unmarked_objects graph.now marks.now.marks)) }
{
    // Called for its clause `whole`: a graph has few objects, so no sum overflows.
    let _objects = graph.len();
    let mut left = Unmarked::NONE;
    let mut numbers = UnmarkedNumbers::of(marks);
    while let Some(first) = numbers.next() {
        let batch = numbers.batch_from(alloc, first)?;
        let counted = count_in_parts(team, alloc, graph, batch.as_slice())?;
        left = left.and(counted);
    }
    Ok(left)
}

/// Counts the objects that are not marked, one object after the other.
fn count_in_turn<A: Allocator, B: Allocator>(graph: &Graph<'_, A>, marks: &Marked<B>) -> Unmarked
    requires { length marks.now.marks ≡ object_count graph.now }
    ensures { result ≡ totals_of graph.now (unmarked_objects graph.now marks.now.marks) }
{
    // Called for its clause `whole`: a graph has few objects, so no sum overflows.
    let _objects = graph.len();
    let mut left = Unmarked::NONE;
    for object in UnmarkedNumbers::of(marks) {
        left = left.and(Unmarked::of(graph, object));
    }
    left
}

/// Counts the objects `numbers` in parts, at most one for each thread of `team`. `Err(AllocError)` if the allocation
/// for the results of the parts fails.
#[tactic(auto, using(crate::proofs::PartTotals::chunk_are_objects))]
fn count_in_parts<T: Threads + Sync, A: Allocator + Copy + Send, B: Allocator + Sync>(
    team: &Team<'_, T>,
    alloc: A,
    graph: &Graph<'_, B>,
    numbers: &[u32],
) -> Result<Unmarked, AllocError>
    requires { AreGraphObjects graph.now numbers.now }
    ensures { IfOk result (λ left. left ≡ totals_of graph.now numbers.now) }
{
    // Called for its clause `whole`: a graph has few objects, so no sum overflows.
    let _objects = graph.len();
    let count_part = |_: usize, part: &[u32]| -> Unmarked
        requires { AreGraphObjects graph.now part.now }
        ensures { result ≡ totals_of graph.entry.now part.entry.now }
    { count(graph, part) };
    let parts = team.map_parts(alloc, numbers, &count_part)?;
    let mut left = Unmarked::NONE;
    for part in &parts {
        left = left.and(*part);
    }
    Ok(left)
}

/// Counts the objects `numbers`.
fn count<A: Allocator>(graph: &Graph<'_, A>, numbers: &[u32]) -> Unmarked
    requires { AreGraphObjects graph.now numbers.now }
    ensures { result ≡ totals_of graph.now numbers.now }
{
    // Called for its clause `whole`: a graph has few objects, so no sum overflows.
    let _objects = graph.len();
    let mut left = Unmarked::NONE;
    for object in numbers {
        left = left.and(Unmarked::of(graph, *object));
    }
    left
}
