//! Dumps and their reports or refusals, with 1, 2 and 64 workers.

pub mod classes;
pub mod refused;
pub mod reported;

use super::dumps::{Bytes, NOTHING_REPORT, Record, Sample, TWO_OBJECTS_REPORT, WIDE_ARRAY_REPORT};
use super::streams::Drip;
use super::{is_answered, least, refused, runs_are_answered, usual_options};
use crate::{Causes, Refusal, Skip};
use classes::CLASSES;
use refused::REFUSED;
use reported::{NAMES, OBJECTS};
use std::alloc::{AllocError, Global};
use std::process::Abort;
use std::sync::Wait;
use std::thread::Threads;

/// A line of a report: a count, bytes, and a name.
pub type Line = (u64, u64, &'static str);

/// The name of a row, the size of its identifiers, its records, and the lines of its report.
pub type Reported = (&'static str, u32, &'static [Record], &'static [Line]);

/// The name of a row, the size of its identifiers, its records, and the code and the place of its refusal.
pub type Refused = (&'static str, u32, &'static [Record], u8, u64);

/// Returns the text of a report of `lines`.
pub fn report_of(alloc: Global, lines: &[Line]) -> Result<String, AllocError> {
    let mut report = String::new(alloc);
    for (count, bytes, name) in lines {
        write!(report, "{count:>10}  {bytes:>14}  {name}\n")?;
    }
    Ok(report)
}

/// How a run reads a dump.
#[derive(Clone, Copy)]
pub enum Reading {
    /// A read fills its buffer, as far as the dump goes; with 1, 2 and 64 workers.
    Whole,
    /// A read returns one byte; with two workers and the least buffers.
    ByteByByte,
}

/// Tests whether the runs on `dump` have the result `want` and write just `report`.
fn reads_are_answered<T: Causes + Threads + Wait + Sync>(
    rt: &T,
    alloc: Global,
    reading: Reading,
    dump: &[u8],
    want: Result<(), Refusal>,
    report: &str,
) -> bool {
    match reading {
        Reading::Whole => runs_are_answered(
            rt,
            alloc,
            &usual_options(),
            &Skip::none(alloc),
            dump,
            want,
            report,
        ),
        Reading::ByteByByte => is_answered(rt, alloc, &least(2), Drip::new(dump), want, report),
    }
}

/// Tests whether the runs on `dump` write the report of `lines`.
fn lines_are_written<T: Causes + Threads + Wait + Sync>(
    rt: &T,
    alloc: Global,
    reading: Reading,
    dump: &[u8],
    lines: &[Line],
) -> bool {
    match report_of(alloc, lines) {
        Ok(report) => reads_are_answered(rt, alloc, reading, dump, Ok(()), report.as_str()),
        Err(_) => false,
    }
}

/// Tests whether the runs on the dump of `row` write its report.
fn is_reported<T: Causes + Threads + Wait + Sync>(
    rt: &T,
    alloc: Global,
    reading: Reading,
    row: &Reported,
) -> bool {
    let (_, id_size, records, lines) = *row;
    match Bytes::dump(alloc, id_size, records) {
        Ok(dump) => lines_are_written(rt, alloc, reading, dump.bytes.as_slice(), lines),
        Err(_) => false,
    }
}

/// Tests whether the runs on the dump of `row` are refused as `row` says.
fn is_refused<T: Causes + Threads + Wait + Sync>(
    rt: &T,
    alloc: Global,
    reading: Reading,
    row: &Refused,
) -> bool {
    let (_, id_size, records, code, place) = *row;
    let want = refused(code, Some(place));
    match Bytes::dump(alloc, id_size, records) {
        Ok(dump) => reads_are_answered(rt, alloc, reading, dump.bytes.as_slice(), want, ""),
        Err(_) => false,
    }
}

/// Tests whether the runs on `sample` write `report`.
fn sample_is_reported<T: Causes + Threads + Wait + Sync>(
    rt: &T,
    alloc: Global,
    reading: Reading,
    sample: Sample,
    report: &str,
) -> bool {
    match sample.dump(alloc) {
        Ok(dump) => reads_are_answered(rt, alloc, reading, dump.bytes.as_slice(), Ok(()), report),
        Err(_) => false,
    }
}

/// Dumps that other tests run on too.
static SAMPLES: [(Sample, &str); 3] = [
    (Sample::Nothing, NOTHING_REPORT),
    (Sample::TwoObjects, TWO_OBJECTS_REPORT),
    (Sample::WideArray, WIDE_ARRAY_REPORT),
];

/// Checks that the runs on the dump of each of `rows` write its report.
fn all_are_reported<T: Abort + Causes + Threads + Wait + Sync>(
    rt: &T,
    alloc: Global,
    reading: Reading,
    rows: &[Reported],
) {
    for row in rows {
        assert!(rt; is_reported(rt, alloc, reading, row), "{}", row.0);
    }
}

// A function for each table: a function that names a static is checked together with all of it.

fn objects_are_reported<T: Abort + Causes + Threads + Wait + Sync>(
    rt: &T,
    alloc: Global,
    reading: Reading,
) {
    all_are_reported(rt, alloc, reading, &OBJECTS);
}

fn names_are_reported<T: Abort + Causes + Threads + Wait + Sync>(
    rt: &T,
    alloc: Global,
    reading: Reading,
) {
    all_are_reported(rt, alloc, reading, &NAMES);
}

fn classes_are_reported<T: Abort + Causes + Threads + Wait + Sync>(
    rt: &T,
    alloc: Global,
    reading: Reading,
) {
    all_are_reported(rt, alloc, reading, &CLASSES);
}

fn samples_are_reported<T: Abort + Causes + Threads + Wait + Sync>(
    rt: &T,
    alloc: Global,
    reading: Reading,
) {
    for (sample, report) in SAMPLES {
        assert!(rt;
            sample_is_reported(rt, alloc, reading, sample, report),
            "a sample: {report}"
        );
    }
}

/// Checks that the runs on each dump that has a report write it.
pub fn reports_are_written<T: Abort + Causes + Threads + Wait + Sync>(
    rt: &T,
    alloc: Global,
    reading: Reading,
) {
    objects_are_reported(rt, alloc, reading);
    names_are_reported(rt, alloc, reading);
    classes_are_reported(rt, alloc, reading);
    samples_are_reported(rt, alloc, reading);
}

/// Checks that the runs on the dump of each of `rows` are refused as the row says.
fn all_are_refused<T: Abort + Causes + Threads + Wait + Sync>(
    rt: &T,
    alloc: Global,
    reading: Reading,
    rows: &[Refused],
) {
    for row in rows {
        assert!(rt; is_refused(rt, alloc, reading, row), "{}", row.0);
    }
}

/// Checks that the runs on each dump with a fault are refused as its row says.
pub fn faults_are_found<T: Abort + Causes + Threads + Wait + Sync>(
    rt: &T,
    alloc: Global,
    reading: Reading,
) {
    all_are_refused(rt, alloc, reading, &REFUSED);
}

#[test]
fn rows_are_reported(rt: HostRuntime) {
    reports_are_written(&rt, rt.alloc(), Reading::Whole);
}

#[test]
fn faults_are_refused(rt: HostRuntime) {
    faults_are_found(&rt, rt.alloc(), Reading::Whole);
}

/// Returns a header, and the head of a string record with a body of 2 ^ 32 - 1 bytes, which is missing.
fn long_string(alloc: Global) -> Result<Bytes, AllocError> {
    let mut dump = Bytes::header(alloc, 4)?;
    dump.raw(&[0x01, 0, 0, 0, 0, 0xff, 0xff, 0xff, 0xff])?;
    Ok(dump)
}

/// Tests whether the runs on the file of [`long_string`] are refused as `Truncated`.
fn long_string_is_refused<T: Causes + Threads + Wait + Sync>(rt: &T, alloc: Global) -> bool {
    let (reading, want) = (Reading::Whole, refused(3, Some(31)));
    match long_string(alloc) {
        Ok(dump) => reads_are_answered(rt, alloc, reading, dump.bytes.as_slice(), want, ""),
        Err(_) => false,
    }
}

/// A file that ends after the head of a string record. By its head, the record has a body of 2 ^ 32 - 1 bytes.
#[test]
fn a_long_string_is_refused(rt: HostRuntime) {
    assert!(rt; long_string_is_refused(&rt, rt.alloc()));
}
