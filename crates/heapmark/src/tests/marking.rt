//! Runs at the limits of a pool: with its last tags, or with the fewest and smallest buffers.

use super::dumps::Sample::{LongArray, Nothing, Roots, TwoObjects, WideArray};
use super::dumps::{
    LONG_ARRAY_REPORT, NINE_ROOTS_REPORT, NOTHING_REPORT, SEVEN_ROOTS_REPORT, Sample,
    WIDE_ARRAY_REPORT,
};
use super::{Answered, answer};
use crate::{Causes, Options, Skip};
use std::alloc::Global;
use std::process::Abort;
use std::sync::Wait;
use std::thread::Threads;

/// The last tag of a stack's head. It is also the number of exchanges that a head can make from tag 0 on.
const LAST_TAG: u64 = 281_474_976_710_655;

/// A dump; workers, objects in a buffer, buffers, and how many exchanges of a head are possible from the first tag on;
/// and the result of a run: a report, or the code of a refusal.
type Row = (Sample, (u32, u32, u32, u64), Result<&'static str, u8>);

static ROWS: [Row; 13] = [
    // the first exchange needs a tag after the last one
    (TwoObjects, (4, 256, 1024, 0), Err(16)),
    // without objects the leader and each worker pop two buffers and push them again: four exchanges each
    (Nothing, (1, 256, 1024, 8), Ok(NOTHING_REPORT)),
    (Nothing, (1, 256, 1024, 7), Err(16)),
    (Nothing, (2, 256, 1024, 12), Ok(NOTHING_REPORT)),
    (Nothing, (2, 256, 1024, 11), Err(16)),
    (Nothing, (64, 256, 130, 260), Ok(NOTHING_REPORT)),
    (Nothing, (64, 256, 130, 259), Err(16)),
    // four buffers of two objects have no room for the 64 successors of the wide array
    (WideArray, (1, 2, 4, LAST_TAG), Ok(WIDE_ARRAY_REPORT)),
    (LongArray, (1, 256, 1024, LAST_TAG), Ok(LONG_ARRAY_REPORT)),
    (LongArray, (2, 256, 1024, LAST_TAG), Ok(LONG_ARRAY_REPORT)),
    (LongArray, (64, 256, 1024, LAST_TAG), Ok(LONG_ARRAY_REPORT)),
    // seven roots take all four buffers: the worker finds none for a pair and ends, and the leader scans all seven
    (Roots(7), (1, 2, 4, LAST_TAG), Ok(SEVEN_ROOTS_REPORT)),
    // the ninth root goes to the leader's spill list
    (Roots(9), (1, 2, 4, LAST_TAG), Ok(NINE_ROOTS_REPORT)),
];

/// Returns the result of a run on `row`.
fn answer_of<T: Causes + Threads + Wait + Sync>(
    rt: &T,
    alloc: Global,
    row: &Row,
) -> Option<Answered> {
    let (sample, (workers, buffer, buffers, exchanges), want) = *row;
    let first_tag = LAST_TAG.saturating_sub(exchanges);
    let Ok(options) = Options::new(workers, buffer, buffers, first_tag) else {
        return None;
    };
    let (skip, report) = (Skip::none(alloc), want.unwrap_or(""));
    match sample.dump(alloc) {
        Ok(dump) => Some(answer(rt, alloc, &options, &skip, dump.bytes.as_slice(), report)),
        Err(_) => None,
    }
}

/// Returns the result that `row` wants.
fn wanted(row: &Row) -> Answered {
    match row.2 {
        Ok(report) => Answered::whole(report),
        Err(code) => Answered::refused(code, 0),
    }
}

/// Checks the runs on `rows`.
fn all_are_answered<T: Abort + Causes + Threads + Wait + Sync>(
    rt: &T,
    alloc: Global,
    rows: &[Row],
) {
    for (number, row) in rows.iter().enumerate() {
        let told = answer_of(rt, alloc, row);
        assert_eq!(rt; told, Some(wanted(row)), "row {number}");
    }
}

#[test]
fn last_tags_and_least_buffers(rt: HostRuntime) {
    all_are_answered(&rt, rt.alloc(), &ROWS);
}
