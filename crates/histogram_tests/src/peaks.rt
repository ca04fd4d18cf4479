//! The most bytes that `rows` and `write_report` have in use at the same time. The numbers of the table follow from
//! what is stored, whatever the order of the identifiers:
//!
//! - A line takes 56 bytes. The list of lines has room for 4 or more, and doubles when it is full: while it moves, the
//!   old list and the new one are in use.
//! - A name takes 7 bytes for the class objects, and here 8 for each class.
//! - To count unmarked objects in parts, a batch of their numbers takes a megabyte. The result of each part is a list
//!   with room for 4 results of 24 bytes.
//! - The text is a list of bytes that doubles. Its first room is for the 10 places of the first number.

ghost use Rattle.drain.specs.Marks.{IsMarkingOf};

use crate::graphs::graph_of;
use drain::{Marked, NoGate, Options, mark};
use heap_graph::{Graph, Skip};
use histogram::{Counted, Report, rows, write_report};
use hprof_grammar::Team;
use limited_heap::LimitedHeap;
use std::alloc::{AllocError, Allocator, Global};
use std::sync::Wait;
use std::test::Fail;
use std::thread::Threads;
use test_dumps::Sub::{Class, Instance, Root};
use test_dumps::{Bytes, Order};

/// The number of classes without a name, each with an instance that is a root; the order of the instances of the first
/// class that are not marked, and their number.
type Heap = (u32, Order, u32);

/// The number of threads of a team, and the least number of objects on which they share the work.
type Shares = (u32, u32);

/// The fewest and the most bytes in use while the rows are made, and the most while the text is made.
type Peaks = (usize, usize, usize);

/// Two lines: a list with room for four, and two names.
const TWO: usize = 4 * 56 + 7 + 8;

/// Two lines, and a batch of 262,144 numbers of 4 bytes.
const BATCH: usize = TWO + 4 * 262_144;

/// 196 bytes of text: a list of 160 bytes that grows to 320.
const SHORT: usize = 160 + 320;

/// Objects are counted one after the other.
const IN_TURN: Peaks = (TWO, TWO, SHORT);

/// Objects are counted in two parts. The results of both are in use when they are joined.
const IN_TWO: Peaks = (BATCH + 2 * 96, BATCH + 2 * 96, SHORT);

/// Objects are counted in four parts. The results of three or four are in use at the same time.
const IN_FOUR: Peaks = (BATCH + 3 * 96, BATCH + 4 * 96, SHORT);

/// Objects are counted in 50 parts.
const IN_FIFTY: Peaks = (BATCH + 50 * 24, BATCH + 50 * 96, SHORT);

/// 551 lines: a list of 512 that grows to 1,024 when there are 513 names. The text has 20,509 bytes: a list of 20,480
/// that grows to 40,960.
const GROWN: Peaks = (90_119, 90_119, 20_480 + 40_960);

/// Each heap with the team that makes its rows, and what they take.
const CASES: [(Heap, Shares, Peaks); 7] = [
    ((1, Order::Ascending, 100), (1, 1), IN_TURN),
    ((1, Order::Ascending, 100), (2, 101), IN_TURN),
    ((1, Order::Ascending, 100), (2, 1), IN_TWO),
    ((1, Order::Close, 100), (2, 1), IN_TWO),
    ((1, Order::Far, 100), (4, 1), IN_FOUR),
    ((1, Order::Far, 100), (64, 1), IN_FIFTY),
    ((550, Order::Ascending, 0), (2, 1), GROWN),
];

/// Returns the body of a heap dump with the objects of `case`. Identifiers have 8 bytes.
fn objects(alloc: Global, case: Heap) -> Result<Bytes, AllocError> {
    let (classes, order, unmarked) = case;
    let mut heap = Bytes::new(alloc, 8);
    for class in 0..classes {
        let granule = u64::from(class) * 16;
        heap.sub(Class(0x10000 + granule, 0, &[]))?;
        heap.sub(Instance(0x80_0000 + granule, 0x10000 + granule, &[]))?;
        heap.sub(Root(0x80_0000 + granule))?;
    }
    for number in 0..unmarked {
        let id = order.id_of(u64::from(number), u64::from(unmarked), 0x100_0000, 16);
        heap.sub(Instance(id, 0x10000, &[]))?;
    }
    Ok(heap)
}

/// Returns a dump with the objects of `case`.
fn dump(alloc: Global, case: Heap) -> Result<Bytes, AllocError> {
    let heap = objects(alloc, case)?;
    let mut file = Bytes::header(alloc, 8)?;
    file.record(0x0C, heap.bytes.as_slice())?;
    Ok(file)
}

/// Returns the most bytes in use while the text of `report` is made, or `None` if it is not written.
fn peak_of_text<A: Allocator>(alloc: Global, report: &Report<A>) -> Option<usize> {
    let heap = LimitedHeap::new(alloc, u64::MAX);
    let mut writer = Counted::new(Vec::new(alloc));
    match write_report(&heap, report, &mut writer) {
        Ok(()) => Some(heap.usage().peak),
        Err(_) => None,
    }
}

/// Returns the most bytes in use while `team` makes the rows, and while their text is made. Returns `None` if one of
/// the two fails.
fn peaks_of_marks<T: Threads + Sync>(
    team: &Team<'_, T>,
    alloc: Global,
    graph: &Graph<'_, Global>,
    marks: &Marked<Global>,
) -> Option<(usize, usize)>
    requires { IsMarkingOf graph.now marks.now }
{
    let heap = LimitedHeap::new(alloc, u64::MAX);
    match rows(team, &heap, graph, marks) {
        Ok(report) => Some((heap.usage().peak, peak_of_text(alloc, &report)?)),
        Err(_) => None,
    }
}

/// Like [`peaks_of_marks`], for a marking of `graph` and the team that `shares` describes.
fn peaks_of_graph<T: Threads + Wait + Sync>(
    rt: &T,
    alloc: Global,
    graph: &Graph<'_, Global>,
    shares: Shares,
) -> Option<(usize, usize)> {
    let Ok(options) = Options::new(1, 64, 4, 0) else {
        return None;
    };
    let team = Team::sharing_from(rt, shares.0, shares.1);
    match mark(rt, alloc, graph, &options, &NoGate) {
        Ok(marks) => peaks_of_marks(&team, alloc, graph, &marks),
        Err(_) => None,
    }
}

/// Like [`peaks_of_graph`], for the graph of the dump of `case`.
fn peaks_of_case<T: Threads + Wait + Sync>(
    rt: &T,
    alloc: Global,
    case: Heap,
    shares: Shares,
) -> Option<(usize, usize)> {
    let file = dump(alloc, case).ok()?;
    let skip = Skip::none(alloc);
    let graph = graph_of(rt, alloc, file.bytes.as_slice(), &skip)?;
    let peaks = peaks_of_graph(rt, alloc, &graph, shares);
    drop(graph);
    peaks
}

#[test]
fn memory_is_what_the_histogram_stores(rt: HostRuntime) {
    for (case, shares, (least, most, text)) in CASES {
        let peaks = peaks_of_case(&rt, rt.alloc(), case, shares);
        let fits = peaks.is_some_and(|(rows, written)| least <= rows
            && rows <= most
            && written == text);
        assert!(rt; fits, "{case:?} {shares:?}: {peaks:?}");
    }
}
