//! Objects that are not marked, counted by the threads of a team: the report is the same with any number of threads,
//! even if there is no memory for the numbers of the objects.

ghost use Rattle.drain.specs.Marks.{IsMarkingOf};

use crate::graphs::graph_of;
use crate::reports::writes;
use drain::{Marked, NoGate, Options, mark};
use heap_graph::{Graph, Skip};
use histogram::{OutOfMemory, rows};
use hprof_grammar::Team;
use limited_heap::LimitedHeap;
use std::alloc::{AllocError, Allocator, Global};
use std::sync::Wait;
use std::test::Fail;
use std::thread::Threads;
use test_dumps::Sub::{Class, Instance, Root};
use test_dumps::{Bytes, Record};

/// The number of instances. The class is object 0, so the first instance is object 1.
const INSTANCES: u64 = 100;

/// Teams: their number of threads, and the least number of objects on which they share the work.
const TEAMS: [(u32, u32); 8] = [
    (1, 1),
    (2, 1),
    (3, 1),
    (4, 1),
    (35, 1),
    (64, 1),
    (4, 36),
    (4, 37),
];

/// 65 objects are marked, so 36 are not: the instances 64 to 69, and 71 to 100. Each instance with an even number holds
/// an identifier that names no object.
const REPORT: &str = "        64             256  A
         1               0  <class>
        65             256  (reachable)
        36             144  (unreachable)
        50               0  (unresolved)
";

/// Tests whether `instance` is a root. The class and the roots are objects 0 to 63, whose marks fill two words, and
/// object 70.
fn is_root(instance: u64) -> bool {
    instance < 64 || instance == 70
}

/// Returns the body of a heap dump: the class, its instances and the roots.
fn instances(alloc: Global) -> Result<Bytes, AllocError> {
    let mut heap = Bytes::new(alloc, 4);
    heap.sub(Class(0x100, 0, &[2]))?;
    for instance in 1..=INSTANCES {
        let id = 0x200 | instance;
        let field: &[u8] = if instance % 2 == 0 {
            &[0, 0, 9, 9]
        } else {
            &[0, 0, 2, 1]
        };
        heap.sub(Instance(id, 0x100, field))?;
        if is_root(instance) {
            heap.sub(Root(id))?;
        }
    }
    Ok(heap)
}

/// Returns a dump of the class, its instances and the roots.
fn dump(alloc: Global) -> Result<Bytes, AllocError> {
    let heap = instances(alloc)?;
    let mut file = Bytes::dump(alloc, 4, &[Record::Text(1, b"A"), Record::Load(0x100, 1)])?;
    file.record(0x0C, heap.bytes.as_slice())?;
    Ok(file)
}

/// Tests whether `team` makes the right rows on `heap`.
fn rows_of_team<T: Threads + Sync, A: Allocator + Copy + Send>(
    team: &Team<'_, T>,
    alloc: Global,
    heap: A,
    graph: &Graph<'_, Global>,
    marks: &Marked<Global>,
) -> bool
    requires { IsMarkingOf graph.now marks.now }
{
    match rows(team, heap, graph, marks) {
        Ok(report) => writes(alloc, &report, REPORT),
        Err(OutOfMemory) => false,
    }
}

/// Returns how many allocations of `team` fail if only those of the lines and their names are granted. Returns `None`
/// if the rows are wrong.
fn refused_to_team<T: Threads + Sync>(
    team: &Team<'_, T>,
    alloc: Global,
    graph: &Graph<'_, Global>,
    marks: &Marked<Global>,
) -> Option<u64>
    requires { IsMarkingOf graph.now marks.now }
{
    let heap = LimitedHeap::new(alloc, 3);
    match rows_of_team(team, alloc, &heap, graph, marks) {
        true => Some(heap.refusals()),
        false => None,
    }
}

/// For each team, whether the rows are right, and how many of its allocations fail.
type Answers = Vec<(bool, Option<u64>)>;

/// Returns the answers of all `TEAMS` for `graph`.
fn answers_of_marks<T: Threads + Wait + Sync>(
    rt: &T,
    alloc: Global,
    graph: &Graph<'_, Global>,
    marks: &Marked<Global>,
) -> Result<Answers, AllocError>
    requires { IsMarkingOf graph.now marks.now }
{
    let mut answers = Vec::new(alloc);
    for (threads, fewest) in TEAMS {
        let team = Team::sharing_from(rt, threads, fewest);
        answers.push((
            rows_of_team(&team, alloc, alloc, graph, marks),
            refused_to_team(&team, alloc, graph, marks),
        ))?;
    }
    Ok(answers)
}

/// Returns the answers of all `TEAMS` for `graph`, or no answer if `graph` is not marked.
fn answers_of_graph<T: Threads + Wait + Sync>(
    rt: &T,
    alloc: Global,
    graph: &Graph<'_, Global>,
) -> Result<Answers, AllocError> {
    let Ok(options) = Options::new(1, 2, 4, 0) else {
        return Ok(Vec::new(alloc));
    };
    match mark(rt, alloc, graph, &options, &NoGate) {
        Ok(marks) => answers_of_marks(rt, alloc, graph, &marks),
        Err(_) => Ok(Vec::new(alloc)),
    }
}

/// Like [`answers_of_graph`], for the graph of the dump.
fn answers<T: Threads + Wait + Sync>(rt: &T, alloc: Global) -> Result<Answers, AllocError> {
    let file = dump(alloc)?;
    let bytes = file.bytes.as_slice();
    let skip = Skip::none(alloc);
    let Some(graph) = graph_of(rt, alloc, bytes, &skip) else {
        return Ok(Vec::new(alloc));
    };
    let answers = answers_of_graph(rt, alloc, &graph);
    drop(graph);
    answers
}

#[test]
fn counts_in_parts(rt: HostRuntime) -> Result<(), Fail> {
    let answers = answers(&rt, rt.alloc())?;
    // To count, a team of one thread takes no memory, nor does any team if there are too few objects.
    let wanted = [0, 1, 1, 1, 1, 1, 1, 0].map(|refused| (true, Some(refused)));
    assert_eq!(rt; answers.as_slice(), wanted.as_slice());
    Ok(())
}
