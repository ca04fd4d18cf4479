//! A report of 100,000 rows, each of a class of its own.
//!
//! `rt try --test` takes some minutes for this file: `--seconds 300` lets it end.

use super::dumps::Bytes;
use super::{runs_are_answered, usual_options};
use crate::{Causes, Skip};
use std::alloc::{AllocError, Global};
use std::sync::Wait;
use std::thread::Threads;

const CLASSES: u32 = 100_000;

/// Puts into `heap` a class without name and fields, an instance of the class, and a root that names the instance.
fn put_class(heap: &mut Bytes, number: u32) -> Result<(), AllocError> {
    let [_, a, b, c] = number.to_be_bytes();
    heap.raw(&[0x20, 1, a, b, c])?;
    heap.raw(&[0; 38])?;
    heap.raw(&[
        0x21, 2, a, b, c, 0, 0, 0, 0, 1, a, b, c, 0, 0, 0, 0, 0xff, 2, a, b, c,
    ])
}

/// Returns a dump of all the classes.
fn classes(alloc: Global) -> Result<Bytes, AllocError> {
    let mut heap = Bytes::new(alloc, 4);
    for number in 0..CLASSES {
        put_class(&mut heap, number)?;
    }
    let mut dump = Bytes::header(alloc, 4)?;
    dump.record(0x0C, heap.bytes.as_slice())?;
    Ok(dump)
}

/// Appends to `report` the lines of the dump of all the classes: rows with equal bytes and objects come in the order of
/// their names.
fn put_lines(report: &mut String) -> Result<(), AllocError> {
    write!(report, "{CLASSES:>10}  {:>14}  <class>\n", 0)?;
    for number in 0..CLASSES {
        write!(report, "         1               0  ?0x1{number:06x}\n")?;
    }
    write!(report, "{:>10}  {:>14}  (reachable)\n", 2 * CLASSES, 0)?;
    report.push_str("         0               0  (unreachable)\n")?;
    report.push_str("         0               0  (unresolved)\n")
}

/// Returns the report of the dump of all the classes.
fn report(alloc: Global) -> Result<String, AllocError> {
    let mut report = String::new(alloc);
    put_lines(&mut report)?;
    Ok(report)
}

/// Tests whether each run on `bytes`, the dump of the classes, writes their report.
fn is_reported<T: Causes + Threads + Wait + Sync>(rt: &T, alloc: Global, bytes: &[u8]) -> bool {
    match report(alloc) {
        Ok(report) => {
            let skip = Skip::none(alloc);
            runs_are_answered(
                rt,
                alloc,
                &usual_options(),
                &skip,
                bytes,
                Ok(()),
                report.as_str(),
            )
        }
        Err(_) => false,
    }
}

/// Tests whether each run on the dump of the classes writes their report.
fn classes_are_reported<T: Causes + Threads + Wait + Sync>(rt: &T, alloc: Global) -> bool {
    match classes(alloc) {
        Ok(dump) => is_reported(rt, alloc, dump.bytes.as_slice()),
        Err(_) => false,
    }
}

#[test]
fn a_hundred_thousand_rows_are_reported(rt: HostRuntime) {
    assert!(rt; classes_are_reported(&rt, rt.alloc()));
}
