//! Allocations that fail: each allocation of a run fails in turn, once as the only one, and once with all later ones.

use super::dumps::Sample::{Records, TwoObjects, WideArray};
use super::dumps::Sub::{Class, Objects, Root, Values};
use super::dumps::{Record, Sample, TWO_OBJECTS_REPORT, WIDE_ARRAY_REPORT};
use super::skips::REFERENCES;
use super::{Answered, length_of, run_with};
use crate::{Causes, NoGate, Options, Skip, SkipRefusal};
use limited_heap::LimitedHeap;
use std::alloc::Global;
use std::process::Abort;
use std::sync::Wait;
use std::thread::Threads;

/// A heap with an array of references and an array of numbers.
const ARRAYS: Record = Record::Heap(&[
    Class(0x100, 0, &[]),
    Objects(0x201, 0x100, &[0, 0x201, 0x999]),
    Values(0x202, 11, 0, &[]),
    Root(0x201),
    Root(0x202),
]);

/// The heap of `ARRAYS`, and a name for its class.
const NAMED_ARRAYS: &[Record] = &[
    Record::Text(1, b"[Ljava/lang/Object;"),
    Record::Load(0x100, 1),
    ARRAYS,
];

/// The report of `ARRAYS`.
const ARRAYS_REPORT: &str = "         1              24  ?0x100
         1               0  <class>
         1               0  long[]
         3              24  (reachable)
         0               0  (unreachable)
         1               0  (unresolved)
";

/// The report of `NAMED_ARRAYS`.
const NAMED_ARRAYS_REPORT: &str = "         1              24  [Ljava/lang/Object;
         1               0  <class>
         1               0  long[]
         3              24  (reachable)
         0               0  (unreachable)
         1               0  (unresolved)
";

/// The report of `REFERENCES` if the fields of `java/lang/ref/Reference` are skipped.
pub const SUPERCLASS_SKIPPED_REPORT: &str = "         2              16  T
         2               0  <class>
         4              16  (reachable)
         1               8  (unreachable)
         0               0  (unresolved)
";

/// A dump; workers, objects in a buffer, and buffers; the list of fields to be skipped, or `None`; the report.
type Row = (Sample, (u32, u32, u32), Option<&'static str>, &'static str);

/// Rows with few buffers.
static FEW: [Row; 6] = [
    (TwoObjects, (2, 2, 6), None, TWO_OBJECTS_REPORT),
    (Records(8, &[ARRAYS]), (2, 2, 6), None, ARRAYS_REPORT),
    (
        Records(8, NAMED_ARRAYS),
        (2, 2, 6),
        None,
        NAMED_ARRAYS_REPORT,
    ),
    (WideArray, (2, 2, 6), None, WIDE_ARRAY_REPORT),
    // the worker's own list grows, since four buffers of two objects do not hold all 64
    (WideArray, (1, 2, 4), None, WIDE_ARRAY_REPORT),
    (WideArray, (2, 64, 8), None, WIDE_ARRAY_REPORT),
];

/// Rows with the program's default buffers.
static OF_THE_PROGRAM: [Row; 3] = [
    (TwoObjects, (2, 256, 1024), None, TWO_OBJECTS_REPORT),
    (
        Records(8, NAMED_ARRAYS),
        (2, 256, 1024),
        None,
        NAMED_ARRAYS_REPORT,
    ),
    (WideArray, (2, 256, 1024), None, WIDE_ARRAY_REPORT),
];

/// A row with a list of `--skip`, so that the names of classes and fields are looked up.
static WITH_A_LIST: [Row; 1] = [(
    Records(4, REFERENCES),
    (2, 2, 6),
    Some("java/lang/ref/Reference.referent"),
    SUPERCLASS_SKIPPED_REPORT,
)];

/// Runs on `dump` while the allocation `request` (counted from 0) fails, and all later ones too unless `alone`. Returns
/// what the run did, with the bytes of `report` that it has written, and how many allocations failed.
fn run_refusing<T: Causes + Threads + Wait + Sync>(
    rt: &T,
    alloc: Global,
    dump: &[u8],
    options: &Options,
    skip: &Skip<'_, Global>,
    report: &str,
    request: u64,
    alone: bool,
) -> (Answered, u64) {
    let heap = if alone {
        LimitedHeap::refusing(alloc, request)
    } else {
        LimitedHeap::new(alloc, request)
    };
    let written = Vec::new(alloc);
    let (outcome, written) = run_with(rt, &heap, options, skip, &NoGate, dump, written);
    let length = length_of(written.as_slice(), report);
    (Answered { outcome, length }, heap.refusals())
}

/// Fails each allocation in turn, in a run of its own, until none fails in a run. Returns the number of the first
/// allocation whose run has a wrong result, or `None` if there is none. Fewer than nine allocations in all, or 4,096
/// and more, count as a wrong result, too.
fn first_other<T: Causes + Threads + Wait + Sync>(
    rt: &T,
    alloc: Global,
    dump: &[u8],
    options: &Options,
    skip: &Skip<'_, Global>,
    report: &str,
    alone: bool,
) -> Option<u64> {
    for request in 0..4096u64 {
        let (told, refusals) = run_refusing(rt, alloc, dump, options, skip, report, request, alone);
        // if only this allocation failed, a list may have tried again with less, and the run may succeed
        let want = if refusals == 0 || alone && told.outcome.is_ok() {
            Answered::whole(report)
        } else {
            Answered::refused(15, 0)
        };
        if told != want || refusals == 0 && request <= 8 {
            return Some(request);
        }
        if refusals == 0 {
            return None;
        }
    }
    Some(4096)
}

/// Returns the fields of `list`, or none.
fn skip_of(
    alloc: Global,
    list: Option<&'static str>,
) -> Result<Skip<'static, Global>, SkipRefusal> {
    match list {
        Some(text) => Skip::new(alloc, text),
        None => Ok(Skip::none(alloc)),
    }
}

/// Tests whether runs of `row` on `dump` are right while each allocation fails in turn, as the only one and with all
/// later ones ([`first_other`]).
fn requests_are_told<T: Causes + Threads + Wait + Sync>(
    rt: &T,
    alloc: Global,
    dump: &[u8],
    row: &Row,
) -> bool {
    let (_, (workers, buffer, buffers), list, report) = *row;
    let Ok(options) = Options::new(workers, buffer, buffers, 0) else {
        return false;
    };
    match skip_of(alloc, list) {
        Ok(skip) => {
            first_other(rt, alloc, dump, &options, &skip, report, false).is_none()
                && first_other(rt, alloc, dump, &options, &skip, report, true).is_none()
        }
        Err(_) => false,
    }
}

/// Like [`requests_are_told`], for the dump of `row`.
fn row_is_told<T: Causes + Threads + Wait + Sync>(rt: &T, alloc: Global, row: &Row) -> bool {
    match row.0.dump(alloc) {
        Ok(dump) => requests_are_told(rt, alloc, dump.bytes.as_slice(), row),
        Err(_) => false,
    }
}

/// Checks each of `rows` by [`row_is_told`].
fn all_are_told<T: Abort + Causes + Threads + Wait + Sync>(rt: &T, alloc: Global, rows: &[Row]) {
    for (number, row) in rows.iter().enumerate() {
        assert!(rt; row_is_told(rt, alloc, row), "row {number}");
    }
}

#[test]
fn a_failed_allocation_is_reported_at_each_request(rt: HostRuntime) {
    all_are_told(&rt, rt.alloc(), &FEW);
}

#[test]
fn a_failed_allocation_is_reported_with_the_buffers_of_the_program(rt: HostRuntime) {
    all_are_told(&rt, rt.alloc(), &OF_THE_PROGRAM);
}

#[test]
fn a_failed_allocation_is_reported_with_a_list(rt: HostRuntime) {
    all_are_told(&rt, rt.alloc(), &WITH_A_LIST);
}
