//! The rows of a histogram in order, and its totals.

ghost use Rattle.std.specs.Prelude.{◌≡◌, IfOk, IsPermutation, IsSorted, map};
ghost use Rattle.drain.specs.Marks.{IsMarkingOf};
ghost use Rattle.histogram.specs.Histogram.{IsHistogram, compare, entries, marked_objects, unmarked_objects};
ghost use Rattle.heap_graph.specs.Whole.{IsRowIn, unresolved_among};
ghost use Rattle.histogram.specs.HistogramOf.{entry_of, histogram_of};
ghost use Rattle.histogram.specs.working.RowNumbers.{row_entry};

use crate::names::{row_class, row_name};
use crate::reachable::reachable;
use crate::report::{Line, Report};
use crate::unmarked::count_unmarked;
use drain::Marked;
use heap_graph::{Graph, RowKey};
use hprof_grammar::Team;
use mark_core::OutOfMemory;
use std::alloc::{AllocError, Allocator};
use std::cmp::Ordering;
use std::thread::Threads;

/// Makes the histogram of `graph` and of its marking `marks`: a line for each row that has a marked object, in the
/// order of the report, and the three totals.
///
/// `Err(OutOfMemory)` if an allocation fails. There is no other error.
pub fn rows<T: Threads + Sync, A: Allocator + Copy + Send, B: Allocator + Sync, C: Allocator>(
    team: &Team<'_, T>,
    alloc: A,
    graph: &Graph<'_, B>,
    marks: &Marked<C>,
) -> Result<Report<A>, OutOfMemory>
    requires { IsMarkingOf graph.now marks.now }
    ensures { IfOk result (λ report. IsHistogram graph.now marks.now.marks (histogram_of report)) }
{
    let rows = lines_in_order(alloc, graph, marks)?;
    let unmarked = count_unmarked(team, alloc, graph, marks);
    Ok(Report {
        rows,
        reachable: reachable(graph, marks),
        unreachable: (unmarked.count, unmarked.bytes),
        unresolved: all_unresolved(graph, marks, unmarked.unresolved),
    })
}

/// Returns the number of identifiers other than 0, in all objects and in the roots, that name no object. `unmarked` is
/// the number of such identifiers in the objects that are not marked.
fn all_unresolved<A: Allocator, B: Allocator>(
    graph: &Graph<'_, A>,
    marks: &Marked<B>,
    unmarked: u64,
) -> u64
    requires marking { IsMarkingOf graph.now marks.now }
    requires unmarked { unmarked ≡ unresolved_among graph.now (unmarked_objects graph.now marks.now.marks) }
    ensures { result ≡ graph.now.unresolved }
{
    // Called for its clause `whole`: a graph has few objects, so neither sum overflows.
    let _objects = graph.len();
    marks.unresolved() + unmarked + graph.unresolved()
}

/// Makes a line for each row that has a marked object, in the order of the report.
fn lines_in_order<A: Allocator + Copy, B: Allocator, C: Allocator>(
    alloc: A,
    graph: &Graph<'_, B>,
    marks: &Marked<C>,
) -> Result<Vec<Line<A>, A>, AllocError>
    requires { IsMarkingOf graph.now marks.now }
    ensures each_once { IfOk result (λ v.
        IsPermutation (entries graph.now (marked_objects graph.now marks.now.marks)) (map entry_of v.items)) }
    ensures in_order { IfOk result (λ v. IsSorted compare (map entry_of v.items)) }
{
    let mut lines = lines_by_number(alloc, graph, marks)?;
    lines.sort_unstable_by(|a, b| compare_lines(a, b));
    Ok(lines)
}

/// Compares two lines. The line with more bytes comes first; if the bytes are equal, the line with more objects; then
/// the line with the lesser name; then the line with the lesser class.
fn compare_lines<A: Allocator>(a: &Line<A>, b: &Line<A>) -> Ordering
    ensures { result ≡ compare (entry_of a.now) (entry_of b.now) }
{
    let by_name = a
        .name
        .as_slice()
        .cmp(b.name.as_slice())
        .then(a.class.cmp(&b.class));
    b.bytes
        .cmp(&a.bytes)
        .then(b.count.cmp(&a.count).then(by_name))
}

/// Makes a line for each row that has a marked object, in the order of the rows' numbers.
fn lines_by_number<A: Allocator + Copy, B: Allocator, C: Allocator>(
    alloc: A,
    graph: &Graph<'_, B>,
    marks: &Marked<C>,
) -> Result<Vec<Line<A>, A>, AllocError>
    requires { IsMarkingOf graph.now marks.now }
    ensures { IfOk result (λ v. map entry_of v.items ≡ entries graph.now (marked_objects graph.now marks.now.marks)) }
{
    let mut lines = Vec::new(alloc);
    for number in 0..graph.row_count() {
        let row = RowKey::numbered(number);
        let (count, bytes) = marks.tally(&row);
        if count > 0 {
            let line = line_of_row(alloc, graph, row, count, bytes)?;
            lines.push(line)?;
        }
    }
    Ok(lines)
}

/// Makes the line of `row`, which has `count` marked objects of `bytes` bytes in all.
fn line_of_row<A: Allocator, B: Allocator>(
    alloc: A,
    graph: &Graph<'_, B>,
    row: RowKey,
    count: u64,
    bytes: u64,
) -> Result<Line<A>, AllocError>
    requires { IsRowIn graph.now row }
    ensures { IfOk result (λ line. entry_of line ≡ row_entry graph.now row (count, bytes)) }
{
    let name = row_name(alloc, graph, row)?;
    Ok(Line {
        name,
        class: row_class(graph, row),
        count,
        bytes,
    })
}
