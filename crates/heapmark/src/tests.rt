//! What no contract says: the worked rows, damaged dumps, streams and allocations that fail, and what the program
//! prints.
//!
//! Damaged dumps are rows of `rows/refused.rt`, with code and place. Two kinds are elsewhere: dumps cut at each length
//! in `cuts.rt`, and dumps with one byte changed, to each other value, in `damage.rt`.

mod command_lines;
mod cuts;
mod damage;
mod drip;
mod dumps;
mod files;
mod hints;
mod idle;
mod in_memory;
mod many_objects;
mod many_rows;
mod marking;
mod memory;
mod peaks;
mod process;
mod program;
mod records;
mod refusals;
mod rows;
mod skips;
mod streams;
mod texts;
mod workers;

ghost use Rattle.std.specs.Prelude.{◌≤◌};

use crate::{Causes, Counted, Gate, NoGate, Options, Refusal, Skip, run};
use std::alloc::{Allocator, Global};
use std::io::{Read, Write};
use std::sync::Wait;
use std::thread::Threads;

/// Returns the program's default options, but with `workers` workers, 1 to 64.
fn usual(workers: u32) -> Options
    requires some { 1 ≤ workers }
    requires most { workers ≤ 64 }
{
    let Ok(options) = Options::new(workers, 256, 1024, 0) else {
        unreachable!();
    };
    options
}

/// Returns options with the fewest and smallest buffers for `workers` workers, 1 to 64.
fn least(workers: u32) -> Options
    requires some { 1 ≤ workers }
    requires most { workers ≤ 64 }
{
    let Ok(options) = Options::new(workers, 2, 2 * workers + 2, 0) else {
        unreachable!();
    };
    options
}

/// Returns the program's default options with 1, 2 and 64 workers.
fn usual_options() -> [Options; 3] {
    [usual(1), usual(2), usual(64)]
}

/// What a run did.
#[derive(Clone, Copy, Debug, PartialEq)]
struct Answered {
    /// Its result.
    outcome: Result<(), Refusal>,
    /// How many bytes of the wanted report it has written: `None` if it has written anything else.
    length: Option<usize>,
}

impl Answered {
    /// Returns what a run does that reports just `report`.
    fn whole(report: &str) -> Self {
        Answered {
            outcome: Ok(()),
            length: Some(report.len()),
        }
    }

    /// Returns what a run does that is refused with `code`, without a place, after it has written `length` bytes.
    fn refused(code: u8, length: usize) -> Self {
        Answered {
            outcome: refused(code, None),
            length: Some(length),
        }
    }
}

/// Calls `run` with `options`, `skip` and `gate`. Returns the result and the writer.
fn run_with<T, A, R, W, B, G>(
    rt: &T,
    alloc: A,
    options: &Options,
    skip: &Skip<'_, B>,
    gate: &G,
    reader: R,
    writer: W,
) -> (Result<(), Refusal>, W)
where
    T: Causes + Threads + Wait + Sync,
    A: Allocator + Sync,
    R: Read + Drop,
    W: Write,
    B: Allocator,
    G: Gate,
{
    let mut reader = Counted::new(reader);
    let mut writer = Counted::new(writer);
    let outcome = run(rt, alloc, &mut reader, &mut writer, options, skip, gate);
    (outcome, writer.into_inner())
}

/// Returns the length of `written` if it is a beginning of `report`, otherwise `None`.
fn length_of(written: &[u8], report: &str) -> Option<usize> {
    if report.as_bytes().starts_with(written) {
        Some(written.len())
    } else {
        None
    }
}

/// Calls `run` with `options`, `skip` and a gate that does nothing. Drops here all that the run needed: a test that
/// holds nothing while it asserts has a cheap proof.
fn answer<T, R>(
    rt: &T,
    alloc: Global,
    options: &Options,
    skip: &Skip<'_, Global>,
    reader: R,
    report: &str,
) -> Answered
where
    T: Causes + Threads + Wait + Sync,
    R: Read + Drop,
{
    let written = Vec::new(alloc);
    let (outcome, written) = run_with(rt, alloc, options, skip, &NoGate, reader, written);
    let length = length_of(written.as_slice(), report);
    Answered { outcome, length }
}

/// Tests whether a run with `options` that skips no field has the result `want` and writes just `report`.
fn is_answered<T, R>(
    rt: &T,
    alloc: Global,
    options: &Options,
    reader: R,
    want: Result<(), Refusal>,
    report: &str,
) -> bool
where
    T: Causes + Threads + Wait + Sync,
    R: Read + Drop,
{
    let told = answer(rt, alloc, options, &Skip::none(alloc), reader, report);
    told.outcome == want && told.length == Some(report.len())
}

/// Tests whether the run with each of `options` that skips the fields of `skip` has the result `want` and writes just
/// `report`.
fn runs_are_answered<T: Causes + Threads + Wait + Sync>(
    rt: &T,
    alloc: Global,
    options: &[Options],
    skip: &Skip<'_, Global>,
    dump: &[u8],
    want: Result<(), Refusal>,
    report: &str,
) -> bool {
    for options in options {
        let told = answer(rt, alloc, options, skip, dump, report);
        if told.outcome != want || told.length != Some(report.len()) {
            return false;
        }
    }
    true
}

/// Returns the result of a run that is refused with `code` at `offset`.
fn refused(code: u8, offset: Option<u64>) -> Result<(), Refusal> {
    Err(Refusal { code, offset })
}
