//! Readers and writers that fail: each call fails in turn, in a run of its own.

use super::dumps::Sample::{Nothing, TwoObjects};
use super::dumps::{NOTHING_REPORT, Sample, TWO_OBJECTS_REPORT, two_objects};
use super::{Answered, answer, least, length_of, run_with, usual};
use crate::{Causes, NoGate, Options, Skip};
use std::alloc::Global;
use std::io;
use std::io::{ErrorKind, Read, Write};
use std::sync::Wait;
use std::thread::Threads;

/// A reader that returns one byte a call, and fails with `kind` only at the call after `calls_left` calls.
#[derive(Drop)]
pub struct Drip<'a> {
    bytes: &'a [u8],
    calls_left: usize,
    kind: ErrorKind,
}

impl<'a> Drip<'a> {
    /// Creates a reader of `bytes` that does not fail: it would only after more calls than a test makes.
    pub fn new(bytes: &'a [u8]) -> Self {
        Drip {
            bytes,
            calls_left: usize::MAX,
            kind: ErrorKind::Other,
        }
    }
}

impl Read for Drip<'_> {
    fn read(&mut self, buf: &mut [u8]) -> io::Result<usize> {
        let call = self.calls_left;
        self.calls_left = call.wrapping_sub(1);
        if call == 0 {
            return Err(io::Error::from(self.kind));
        }
        let (Some((first, rest)), Some(place)) = (self.bytes.split_first(), buf.first_mut()) else {
            return Ok(0);
        };
        *place = *first;
        self.bytes = rest;
        Ok(1)
    }
}

/// How a call fails.
#[derive(Clone, Copy)]
enum Failure {
    Fault(ErrorKind),
    TakesNothing,
}

/// A writer that takes `step` bytes a call. It fails only at the write after `writes_left` writes, and at the first
/// flush if `flushes` is false.
#[derive(Drop)]
struct Tray {
    taken: Vec<u8>,
    step: usize,
    writes_left: usize,
    failure: Failure,
    flushes: bool,
}

impl Tray {
    /// Creates a writer whose write after `writes_left` writes fails.
    fn new(alloc: Global, step: usize, writes_left: usize, failure: Failure) -> Self {
        Tray {
            taken: Vec::new(alloc),
            step,
            writes_left,
            failure,
            flushes: true,
        }
    }

    /// Creates a writer that takes all that a test writes, and fails at the first flush.
    fn that_does_not_flush(alloc: Global) -> Self {
        let mut tray = Tray::new(alloc, 1000, 1000, Failure::TakesNothing);
        tray.flushes = false;
        tray
    }
}

impl Write for Tray {
    fn write(&mut self, buf: &[u8]) -> io::Result<usize> {
        let write = self.writes_left;
        self.writes_left = write.wrapping_sub(1);
        if write == 0 {
            return match self.failure {
                Failure::Fault(kind) => Err(io::Error::from(kind)),
                Failure::TakesNothing => Ok(0),
            };
        }
        let count = buf.len().min(self.step);
        self.taken.extend_from_slice(&buf[..count])?;
        Ok(count)
    }

    fn flush(&mut self) -> io::Result<()> {
        let works = self.flushes;
        self.flushes = true;
        if works {
            Ok(())
        } else {
            Err(io::Error::from(ErrorKind::Other))
        }
    }
}

/// Returns the result of a run on the dump of two objects whose reader fails after `calls_left` calls, with `kind`.
fn read_failing<T: Causes + Threads + Wait + Sync>(
    rt: &T,
    alloc: Global,
    calls_left: usize,
    kind: ErrorKind,
) -> Option<Answered> {
    let skip = Skip::none(alloc);
    match two_objects(alloc) {
        Ok(dump) => {
            let drip = Drip {
                bytes: dump.bytes.as_slice(),
                calls_left,
                kind,
            };
            Some(answer(rt, alloc, &least(2), &skip, drip, TWO_OBJECTS_REPORT))
        }
        Err(_) => None,
    }
}

#[test]
fn a_read_fault_is_told_and_not_tried_again(rt: HostRuntime) {
    for kind in [
        ErrorKind::Interrupted,
        ErrorKind::UnexpectedEof,
        ErrorKind::Other,
    ] {
        for calls_left in 0..176usize {
            let told = read_failing(&rt, rt.alloc(), calls_left, kind);
            // 174 reads return a byte each, and one more finds the end
            let want = if calls_left < 175 {
                Answered::refused(19, 0)
            } else {
                Answered::whole(TWO_OBJECTS_REPORT)
            };
            assert_eq!(rt; told, Some(want), "{calls_left} reads");
        }
    }
}

/// Returns the result of a run on `bytes` whose report goes to `tray`.
fn written_of<T: Causes + Threads + Wait + Sync>(
    rt: &T,
    alloc: Global,
    options: &Options,
    bytes: &[u8],
    report: &str,
    tray: Tray,
) -> Answered {
    let skip = Skip::none(alloc);
    let (outcome, tray) = run_with(rt, alloc, options, &skip, &NoGate, bytes, tray);
    let length = length_of(tray.taken.as_slice(), report);
    Answered { outcome, length }
}

/// Returns the result of a run on `sample` whose report goes to `tray`.
fn written_to<T: Causes + Threads + Wait + Sync>(
    rt: &T,
    alloc: Global,
    options: &Options,
    sample: Sample,
    report: &str,
    tray: Tray,
) -> Option<Answered> {
    match sample.dump(alloc) {
        Ok(dump) => Some(written_of(rt, alloc, options, dump.bytes.as_slice(), report, tray)),
        Err(_) => None,
    }
}

#[test]
fn a_write_fault_leaves_a_beginning(rt: HostRuntime) {
    let report = TWO_OBJECTS_REPORT;
    for failure in [
        Failure::Fault(ErrorKind::Interrupted),
        Failure::Fault(ErrorKind::WriteZero),
        Failure::TakesNothing,
    ] {
        for writes_left in 0..32usize {
            let tray = Tray::new(rt.alloc(), 10, writes_left, failure);
            let told = written_to(&rt, rt.alloc(), &least(2), TwoObjects, report, tray);
            let taken = writes_left * 10;
            let want = if taken < report.len() {
                Answered::refused(20, taken)
            } else {
                Answered::whole(report)
            };
            assert_eq!(rt; told, Some(want), "{writes_left} writes");
        }
    }
}

#[test]
fn a_fault_of_the_flush_is_told(rt: HostRuntime) {
    let tray = Tray::that_does_not_flush(rt.alloc());
    let told = written_to(
        &rt,
        rt.alloc(),
        &least(2),
        TwoObjects,
        TWO_OBJECTS_REPORT,
        tray,
    );
    assert_eq!(rt; told, Some(Answered::refused(20, TWO_OBJECTS_REPORT.len())));
}

/// The report of `Nothing` has no rows. The first of its three lines is cut after the count.
#[test]
fn a_write_fault_leaves_a_beginning_of_the_last_lines(rt: HostRuntime) {
    for options in [least(2), usual(1), usual(2), usual(64)] {
        let tray = Tray::new(rt.alloc(), 10, 1, Failure::Fault(ErrorKind::Other));
        let told = written_to(&rt, rt.alloc(), &options, Nothing, NOTHING_REPORT, tray);
        assert_eq!(rt; told, Some(Answered::refused(20, 10)), "{options:?}");
    }
}
