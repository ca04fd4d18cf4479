//! From the bytes of a dump to its report.

ghost use Rattle.std.specs.Prelude.{◌≡◌, ◌≢◌, ◌+◌, ◌-◌, ◌^◌, ◌<◌, ◌≤◌, ◌↔◌, ◌⊎◌};
ghost use Rattle.std.specs.Prelude.{IfErr, IfOk, IfSome, IsErrAnd, List, OnOk, true, ℕ};
ghost use Rattle.heap_graph.specs.Skips.{SkipEntry};
ghost use Rattle.std.specs.Io.KnownBytes.{Keeps};
ghost use Rattle.heap_graph.specs.ObjectGraph.{IsGraphOfText};
ghost use Rattle.histogram.specs.Report.{IsReport, report_of};
ghost use Rattle.histogram.specs.Counting.{ConsumesFewer, failures_of, inner_of, is_flushed};
ghost use Rattle.histogram.specs.HistogramOf.{histogram_of};
ghost use Rattle.heapmark.specs.Answer.{ConsumesBytesRead, IsAcceptedText, IsRunRefusal, IsRefusalOf};
ghost use Rattle.heapmark.specs.Answer.{RefusesFirstFault, WritesReport};
ghost use Rattle.heapmark.specs.Answer.{WritesBeginning, WritesSomeBeginning, WritesSomeReport, bytes_read, read_limit};
ghost use Rattle.heapmark.specs.Causes.{HasCause};
ghost use Rattle.heapmark.specs.Headline.{Headline};
ghost use Rattle.front_end.specs.RunRefusals.{HasCode, out_of_memory, read_fault};
ghost use Rattle.heapmark.specs.working.Marking.{IsOfMarking};

use crate::causes::Causes;
use crate::marking_refusal::refusal_of_marking;
use drain::{Gate, Options, mark};
use front_end::Refusal;
use heap_graph::{Graph, Skip};
use histogram::{Counted, Report, rows, write_report};
use hprof_grammar::{LIMIT, Team, read};
use std::alloc::Allocator;
use std::io::{Read, Write};
use std::sync::Wait;
use std::thread::Threads;

/// The most bytes to read: one more than a dump may have, so that a longer file is noticed.
const READ_LIMIT: usize = LIMIT as usize + 1;

/// Reads a heap dump, marks its reachable objects with a thread for each worker, and writes the histogram of them. The
/// fields of `skip` are not followed, and what they name does not count as unresolved.
///
/// Reads until a read returns 0 or fails, or until it has one byte more than a dump may have. Does not retry a failed
/// read or write, and writes nothing but the report.
///
/// If a contract can name the bytes of the reader, as those of a slice, the clause `headline` holds at `Ok`, and an
/// error with a code of 1 to 14 is the first fault of the bytes. Bytes that are no accepted dump are then refused with
/// their first fault, or with 15 or 19 if an allocation or the reader failed first; an accepted dump may be refused
/// with 15, 16 or 18 to 20. For any other reader, such as a file, the clauses only say that the report of some accepted
/// dump was written and flushed, and which code an error may have.
#[tactic(auto, using(crate::proofs::Causing::reader_cause))]
pub fn run<T, A, R, W, B, G>(
    rt: &T,
    alloc: A,
    reader: &mut Counted<R>,
    writer: &mut Counted<W>,
    options: &Options,
    skip: &Skip<'_, B>,
    gate: &G,
) -> Result<(), Refusal>
where
    T: Causes + Threads + Wait + Sync,
    A: Allocator + Sync,
    R: Read,
    W: Write,
    B: Allocator,
    G: Gate,
    requires reads { failures_of reader.old < 2 ^ 64 - 1 }
    requires writes { failures_of writer.old < 2 ^ 64 - 1 }

    // The bytes read are an accepted dump, and their report was appended to what the writer had.
    ensures headline { Headline result (R.remaining (inner_of reader.old)) skip.now
        (W.contents (inner_of writer.old)) (W.contents (inner_of writer.new)) }

    // For any reader, also one whose bytes no contract can name, such as a file: the report of some accepted dump was
    // written.
    ensures report_of_a_text { OnOk result
        (WritesSomeReport skip.now (W.contents (inner_of writer.old)) (W.contents (inner_of writer.new))) }

    ensures flushed { OnOk result (is_flushed writer.new ≡ true) }

    // A reported fault is the first fault of the bytes. Conversely, bytes that are no accepted dump are refused with
    // their first fault, unless an allocation or the reader failed first.
    ensures first_fault { IfErr result (λ refusal. refusal.code ≤ 14
        → IfSome (R.remaining (inner_of reader.old)) (λ given. RefusesFirstFault (bytes_read given) refusal)) }
    ensures not_accepted { IfSome (R.remaining (inner_of reader.old)) (λ given.
        (IsAcceptedText (bytes_read given) → ⊥) → IsErrAnd result (IsRefusalOf (bytes_read given))) }
    ensures known { IfErr result IsRunRefusal }

    // A tag is spent only if a worker of a pool with the first tag of `options` loaded a stack's last one. A worker is
    // refused only if its thread could not be started.
    ensures cause { IfErr result (HasCause (T.causes rt.now) options.now.first_tag) }

    // The bytes read were taken from the reader, and no others: no read is made after the limit is reached.
    ensures consumed { OnOk result
        (ConsumesBytesRead (R.remaining (inner_of reader.old)) (R.remaining (inner_of reader.new))) }
    ensures consumed_at_a_refusal { IfErr result (λ refusal. refusal.code ≢ 15 → refusal.code ≢ 19
        → ConsumesBytesRead (R.remaining (inner_of reader.old)) (R.remaining (inner_of reader.new))) }
    ensures below { HasCode result 19
        → ConsumesFewer read_limit (R.remaining (inner_of reader.old)) (R.remaining (inner_of reader.new)) }
    ensures within { HasCode result 15
        → ConsumesFewer (read_limit + 1) (R.remaining (inner_of reader.old)) (R.remaining (inner_of reader.new)) }

    // A refusal with 19 raises the reader's count of failures by one, a refusal with 20 that of the writer. No other
    // outcome changes a count.
    ensures read_fault { HasCode result 19 ↔ (failures_of reader.new ≡ failures_of reader.old + 1) }
    ensures no_read_fault { (HasCode result 19 → ⊥) → failures_of reader.new ≡ failures_of reader.old }
    ensures write_fault { HasCode result 20 ↔ (failures_of writer.new ≡ failures_of writer.old + 1) }
    ensures no_write_fault { (HasCode result 20 → ⊥) → failures_of writer.new ≡ failures_of writer.old }

    // What was written at a refusal.
    ensures beginning { HasCode result 20 → IfSome (R.remaining (inner_of reader.old)) (λ given.
        WritesBeginning (bytes_read given) skip.now
        (W.contents (inner_of writer.old)) (W.contents (inner_of writer.new))) }
    ensures beginning_of_a_report { HasCode result 20
        → WritesSomeBeginning skip.now (W.contents (inner_of writer.old)) (W.contents (inner_of writer.new)) }
    ensures untouched { IfErr result (λ refusal. refusal.code ≢ 20
        → Keeps (W.contents (inner_of writer.old)) (W.contents (inner_of writer.new))) }
{
    let bytes = read_bytes(&alloc, reader)?;
    report_bytes(rt, &alloc, bytes.as_slice(), writer, options, skip, gate)
}

/// Reads the bytes of a run: all that `reader` gives, but at most one byte more than the largest dump has.
pub(crate) fn read_bytes<A: Allocator, R: Read>(
    alloc: A,
    reader: &mut Counted<R>,
) -> Result<Vec<u8, A>, Refusal>
    requires { failures_of reader.old < 2 ^ 64 - 1 }
    ensures bytes { IfOk result (λ bytes. IfSome (R.remaining (inner_of reader.old)) (λ given.
        bytes.items ≡ bytes_read given)) }
    ensures consumed { OnOk result
        (ConsumesBytesRead (R.remaining (inner_of reader.old)) (R.remaining (inner_of reader.new))) }
    ensures refusal { IfErr result (λ refusal. (refusal ≡ out_of_memory) ⊎ (refusal ≡ read_fault)) }
    ensures below { HasCode result 19
        → ConsumesFewer read_limit (R.remaining (inner_of reader.old)) (R.remaining (inner_of reader.new)) }
    ensures within { (HasCode result 19 → ⊥)
        → ConsumesFewer (read_limit + 1) (R.remaining (inner_of reader.old)) (R.remaining (inner_of reader.new)) }
    ensures fault { HasCode result 19 ↔ (failures_of reader.new ≡ failures_of reader.old + 1) }
    ensures no_fault { (HasCode result 19 → ⊥) → failures_of reader.new ≡ failures_of reader.old }
{
    Ok(reader.read_to_limit(alloc, READ_LIMIT)?)
}

/// Writes the report of the dump in `bytes`. Knows nothing of readers.
#[tactic(auto, using(crate::proofs::Causing::writer_cause))]
fn report_bytes<T, A, W, B, G>(
    rt: &T,
    alloc: A,
    bytes: &[u8],
    writer: &mut Counted<W>,
    options: &Options,
    skip: &Skip<'_, B>,
    gate: &G,
) -> Result<(), Refusal>
where
    T: Causes + Threads + Wait + Sync,
    A: Allocator + Copy + Send + Sync,
    W: Write,
    B: Allocator,
    G: Gate,
    requires { failures_of writer.old < 2 ^ 64 - 1 }
    ensures written { OnOk result (WritesReport bytes.now skip.now
        (W.contents (inner_of writer.old)) (W.contents (inner_of writer.new))) }
    ensures flushed { OnOk result (is_flushed writer.new ≡ true) }
    ensures refusal { IfErr result (λ refusal. RefusesFirstFault bytes.now refusal ⊎ (refusal ≡ out_of_memory)
        ⊎ (IsAcceptedText bytes.now × (15 ≤ refusal.code))) }
    ensures known { IfErr result (λ refusal. IsRunRefusal refusal × (refusal.code ≢ 19)) }
    ensures cause { IfErr result (HasCause (T.causes rt.now) options.now.first_tag) }
    ensures fault { HasCode result 20 ↔ (failures_of writer.new ≡ failures_of writer.old + 1) }
    ensures no_fault { (HasCode result 20 → ⊥) → failures_of writer.new ≡ failures_of writer.old }
    ensures beginning { HasCode result 20 → WritesBeginning bytes.now skip.now
        (W.contents (inner_of writer.old)) (W.contents (inner_of writer.new)) }
    ensures untouched { IfErr result (λ refusal. refusal.code ≢ 20
        → Keeps (W.contents (inner_of writer.old)) (W.contents (inner_of writer.new))) }
{
    let report = answer(rt, alloc, bytes, options, skip, gate)?;
    match write_report(alloc, &report, writer) {
        Ok(()) => Ok(()),
        Err(refusal) => Err(Refusal::from(refusal)),
    }
}

/// Returns the report of the dump in `bytes`. Knows nothing of readers and writers.
#[tactic(auto, using(crate::proofs::Causing::low_cause))]
fn answer<T, A, B, G>(
    rt: &T,
    alloc: A,
    bytes: &[u8],
    options: &Options,
    skip: &Skip<'_, B>,
    gate: &G,
) -> Result<Report<A>, Refusal>
where
    T: Causes + Threads + Wait + Sync,
    A: Allocator + Copy + Send + Sync,
    B: Allocator,
    G: Gate,
    ensures report { IfOk result (λ report. IsReport bytes.now skip.now (report_of (histogram_of report))) }
    ensures refusal { IfErr result (λ refusal. RefusesFirstFault bytes.now refusal ⊎ (refusal ≡ out_of_memory)
        ⊎ (IsAcceptedText bytes.now × IsOfMarking refusal)) }
    ensures known { IfErr result (λ refusal. IsRunRefusal refusal × (refusal.code ≤ 18)) }
    ensures cause { IfErr result (HasCause (T.causes rt.now) options.now.first_tag) }
{
    let team = Team::at_most(rt, options.workers());
    let graph = match graph_of(&team, alloc, bytes, skip) {
        Ok(graph) => graph,
        Err(refusal) => return Err(refusal),
    };
    let report = report_of_graph(rt, &team, alloc, &graph, options, gate);
    // `drop` is proved once. At the end of this function, the parts of a graph would be gone through again.
    drop(graph);
    report
}

/// Marks `graph` and returns its report.
#[tactic(auto, using(crate::proofs::Causing::same_starved_cause))]
fn report_of_graph<T, A, G>(
    rt: &T,
    team: &Team<'_, T>,
    alloc: A,
    graph: &Graph<'_, A>,
    options: &Options,
    gate: &G,
) -> Result<Report<A>, Refusal>
where
    T: Causes + Threads + Wait + Sync,
    A: Allocator + Copy + Send + Sync,
    G: Gate,
    ensures report { IfOk result (λ report. (text : List ℕ) (skip : List SkipEntry)
        → IsGraphOfText text skip graph.now → IsReport text skip (report_of (histogram_of report))) }
    ensures refusal { IfErr result (λ refusal. (refusal ≡ out_of_memory) ⊎ IsOfMarking refusal) }
    ensures known { IfErr result (λ refusal. IsRunRefusal refusal × (refusal.code ≤ 18)) }
    ensures cause { IfErr result (HasCause (T.causes rt.now) options.now.first_tag) }
{
    let marked = match mark(rt, alloc, graph, options, gate) {
        Ok(marked) => marked,
        Err(fault) => return Err(refusal_of_marking(rt, fault)),
    };
    Ok(rows(team, alloc, graph, &marked)?)
}

/// Returns the graph of the dump in `bytes`.
fn graph_of<'a, T, A, B>(
    team: &Team<'_, T>,
    alloc: A,
    bytes: &'a [u8],
    skip: &'a Skip<'_, B>,
) -> Result<Graph<'a, A>, Refusal>
where
    T: Threads + Sync,
    A: Allocator + Copy + Send + Sync,
    B: Allocator,
    ensures graph { IfOk result (λ graph. IsGraphOfText bytes.now skip.now graph) }
    ensures refusal { IfErr result (λ refusal. RefusesFirstFault bytes.now refusal ⊎ (refusal ≡ out_of_memory)) }
    ensures known { IfErr result (λ refusal. IsRunRefusal refusal × (refusal.code ≤ 15)) }
{
    let dump = match read(team, alloc, bytes) {
        Ok(dump) => dump,
        Err(refusal) => return Err(Refusal::from(refusal)),
    };
    match Graph::build(team, alloc, bytes, dump, skip) {
        Ok(graph) => Ok(graph),
        Err(refusal) => Err(Refusal::from(refusal)),
    }
}
