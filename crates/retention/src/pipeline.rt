//! From the bytes of a dump to its table.

ghost use Rattle.std.specs.Prelude.{IfErr, IfOk, IfSome, IsErrOf, List, OnOk, [], true, ◌+◌, ◌-◌, ◌<◌, ◌^◌, ◌≡◌, ◌≢◌};
ghost use Rattle.std.specs.Prelude.{◌↔◌, ◌⊎◌, ℕ};
ghost use Rattle.std.specs.Io.KnownBytes.{Keeps};
ghost use Rattle.heap_graph.specs.ObjectGraph.{IsGraphOfText};
ghost use Rattle.histogram.specs.Counting.{failures_of, inner_of, is_flushed};
ghost use Rattle.label_list.specs.ListText.{IsFirstBadLine, SpellsList};
ghost use Rattle.retention.specs.HeldTable.{WritesPartOfTable, WritesTable};
ghost use Rattle.retention.specs.Outcome.{SaysOfInputs, bytes_of_run};
ghost use Rattle.retention.specs.working.FaultsOf.{IsOfDump, IsOfTable};

use crate::fault::Fault;
use heap_graph::{Graph, Skip, root_names};
use held_table::{Table, write_table};
use histogram::Counted;
use hprof_grammar::{LIMIT, Team, read};
use label_list::LabelList;
use labelled_graph::held;
use std::alloc::Allocator;
use std::io::{Read, Write};
use std::thread::Threads;

/// The most bytes to read: one more than a dump may have, so that a longer file is noticed.
const READ_LIMIT: usize = LIMIT as usize + 1;

/// The most threads that read and link a dump.
const THREADS: u32 = 4;

/// Reads a heap dump, finds for each reachable object the labels without which it would not be reachable, and writes
/// the table of how many objects and bytes have which set of labels, by class. `labels` is a text that says which
/// references have which labels; it is read first.
///
/// Reads until a read returns 0 or fails, or until it has one byte more than a dump may have. Does not retry a failed
/// read or write, and writes nothing but the table. Up to four threads read and link a large dump.
pub fn run<T, A, R, W>(
    rt: &T,
    alloc: A,
    labels: &[u8],
    reader: &mut Counted<R>,
    writer: &mut Counted<W>,
) -> Result<(), Fault>
where
    T: Threads + Sync,
    A: Allocator + Sync,
    R: Read,
    W: Write,
    requires reads { failures_of reader.old < 2 ^ 64 - 1 }
    requires writes { failures_of writer.old < 2 ^ 64 - 1 }

    // The bytes read are an accepted dump, and their table was appended to what the writer had.
    ensures headline { OnOk result (IfSome (R.remaining (inner_of reader.old)) (λ given.
        WritesTable (bytes_of_run given) labels.now
        (W.contents (inner_of writer.old)) (W.contents (inner_of writer.new)))) }

    // For any reader, also one whose bytes no contract can name: the table of some accepted dump was written.
    ensures table_of_a_text { OnOk result ((text : List ℕ) × WritesTable text labels.now
        (W.contents (inner_of writer.old)) (W.contents (inner_of writer.new))) }
    ensures flushed { OnOk result (is_flushed writer.new ≡ true) }

    // A reported fault is the first one of the labels or of the bytes read.
    ensures first_fault { IfErr result (λ fault. IfSome (R.remaining (inner_of reader.old)) (λ given.
        SaysOfInputs (bytes_of_run given) labels.now fault)) }
    ensures fault_of_a_text { IfErr result (λ fault. (text : List ℕ) × SaysOfInputs text labels.now fault) }
    ensures bad_labels { IfErr result (λ fault. (line : ℕ) → fault ≡ Fault.BadLabels line
        → IsFirstBadLine labels.now line) }

    // The count of failures of the reader or of the writer rises by one exactly if this is the fault.
    ensures read_fault { IsErrOf result Fault.ReadFault ↔ (failures_of reader.new ≡ failures_of reader.old + 1) }
    ensures no_read_fault { result ≢ Err Fault.ReadFault → failures_of reader.new ≡ failures_of reader.old }
    ensures write_fault { IsErrOf result Fault.WriteFault ↔ (failures_of writer.new ≡ failures_of writer.old + 1) }
    ensures no_write_fault { result ≢ Err Fault.WriteFault → failures_of writer.new ≡ failures_of writer.old }

    // What was written at a fault.
    ensures beginning { result ≡ Err Fault.WriteFault → IfSome (R.remaining (inner_of reader.old)) (λ given.
        WritesPartOfTable (bytes_of_run given) labels.now
        (W.contents (inner_of writer.old)) (W.contents (inner_of writer.new))) }
    ensures part_of_a_table { result ≡ Err Fault.WriteFault → (text : List ℕ) × WritesPartOfTable text labels.now
        (W.contents (inner_of writer.old)) (W.contents (inner_of writer.new)) }
    ensures untouched { IfErr result (λ fault. fault ≢ Fault.WriteFault
        → Keeps (W.contents (inner_of writer.old)) (W.contents (inner_of writer.new))) }
{
    let list = match LabelList::read(&alloc, labels) {
        Ok(list) => list,
        Err(refusal) => return Err(Fault::from(refusal)),
    };
    let bytes = match reader.read_to_limit(&alloc, READ_LIMIT) {
        Ok(bytes) => bytes,
        Err(refusal) => return Err(Fault::from(refusal)),
    };
    write_held(rt, &alloc, bytes.as_slice(), &list, writer)
}

/// Writes the table of the dump in `bytes` and of the labels that `list` has.
fn write_held<T, A, B, W>(
    rt: &T,
    alloc: A,
    bytes: &[u8],
    list: &LabelList<B>,
    writer: &mut Counted<W>,
) -> Result<(), Fault>
where
    T: Threads + Sync,
    A: Allocator + Copy + Send + Sync,
    B: Allocator,
    W: Write,
    requires { failures_of writer.old < 2 ^ 64 - 1 }
    ensures written { OnOk result ((labels : List ℕ) → SpellsList labels list.now
        → WritesTable bytes.now labels (W.contents (inner_of writer.old)) (W.contents (inner_of writer.new))) }
    ensures flushed { OnOk result (is_flushed writer.new ≡ true) }
    ensures refusal { IfErr result (λ fault. IsOfDump bytes.now fault ⊎ IsOfTable fault) }
    ensures fault { IsErrOf result Fault.WriteFault ↔ (failures_of writer.new ≡ failures_of writer.old + 1) }
    ensures no_fault { result ≢ Err Fault.WriteFault → failures_of writer.new ≡ failures_of writer.old }
    ensures beginning { result ≡ Err Fault.WriteFault → (labels : List ℕ) → SpellsList labels list.now
        → WritesPartOfTable bytes.now labels (W.contents (inner_of writer.old)) (W.contents (inner_of writer.new)) }
    ensures untouched { IfErr result (λ fault. fault ≢ Fault.WriteFault
        → Keeps (W.contents (inner_of writer.old)) (W.contents (inner_of writer.new))) }
{
    let team = Team::at_most(rt, THREADS);
    let skip = Skip::none(alloc);
    let found = match graph_of(&team, alloc, bytes, &skip) {
        Ok(found) => found,
        Err(fault) => return Err(fault),
    };
    let written = write_graph(alloc, &found, list, writer);
    // `drop` is proved once. At the end of this function, the parts of a graph would be gone through again.
    drop(found);
    written
}

/// A graph, and the identifiers of its roots.
#[derive(Drop)]
struct Rooted<'a, A: Allocator> {
    graph: Graph<'a, A>,
    root_names: Vec<u64, A>,
}

/// Returns the graph of the dump in `bytes`, and the identifiers of its roots.
fn graph_of<'a, T, A>(
    team: &Team<'_, T>,
    alloc: A,
    bytes: &'a [u8],
    skip: &'a Skip<'_, A>,
) -> Result<Rooted<'a, A>, Fault>
where
    T: Threads + Sync,
    A: Allocator + Copy + Send + Sync,
    ensures graph { IfOk result (λ found. IsGraphOfText bytes.now skip.now found.graph
        × (found.root_names.items ≡ found.graph.root_names)) }
    ensures refusal { IfErr result (IsOfDump bytes.now) }
{
    let dump = match read(team, alloc, bytes) {
        Ok(dump) => dump,
        Err(refusal) => return Err(Fault::from(refusal)),
    };
    let Ok(root_names) = root_names(alloc, bytes, &dump) else {
        return Err(Fault::OutOfMemory);
    };
    match Graph::build(team, alloc, bytes, dump, skip) {
        Ok(graph) => Ok(Rooted { graph, root_names }),
        Err(refusal) => Err(Fault::from(refusal)),
    }
}

/// Writes the table of `found` and of the labels that `list` has.
fn write_graph<A, B, W>(
    alloc: A,
    found: &Rooted<'_, A>,
    list: &LabelList<B>,
    writer: &mut Counted<W>,
) -> Result<(), Fault>
where
    A: Allocator + Copy,
    B: Allocator,
    W: Write,
    requires roots { found.now.root_names.items ≡ found.now.graph.root_names }
    requires writes { failures_of writer.old < 2 ^ 64 - 1 }
    ensures written { OnOk result ((text labels : List ℕ) → IsGraphOfText text [] found.now.graph
        → SpellsList labels list.now
        → WritesTable text labels (W.contents (inner_of writer.old)) (W.contents (inner_of writer.new))) }
    ensures flushed { OnOk result (is_flushed writer.new ≡ true) }
    ensures refusal { IfErr result IsOfTable }
    ensures fault { IsErrOf result Fault.WriteFault ↔ (failures_of writer.new ≡ failures_of writer.old + 1) }
    ensures no_fault { result ≢ Err Fault.WriteFault → failures_of writer.new ≡ failures_of writer.old }
    ensures beginning { result ≡ Err Fault.WriteFault → (text labels : List ℕ)
        → IsGraphOfText text [] found.now.graph → SpellsList labels list.now
        → WritesPartOfTable text labels (W.contents (inner_of writer.old)) (W.contents (inner_of writer.new)) }
    ensures untouched { IfErr result (λ fault. fault ≢ Fault.WriteFault
        → Keeps (W.contents (inner_of writer.old)) (W.contents (inner_of writer.new))) }
{
    let Ok(flow) = held(alloc, &found.graph, &found.root_names, list) else {
        return Err(Fault::OutOfMemory);
    };
    let Ok(table) = Table::of(alloc, &found.graph, &flow) else {
        return Err(Fault::OutOfMemory);
    };
    match write_table(alloc, &found.graph, &table, writer) {
        Ok(()) => Ok(()),
        Err(refusal) => Err(Fault::from(refusal)),
    }
}
