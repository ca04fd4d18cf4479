//! Workers that stay until all are idle: a worker that finds no work at first gets some as soon as another has shared
//! it, and the report is the same in each run.

use super::dumps::Sample::{Roots, WideArray};
use super::dumps::{
    EIGHT_ROOTS_REPORT, SEVEN_ROOTS_REPORT, Sample, WIDE_ARRAY_REPORT, wide_array_of_roots,
};
use super::{Answered, is_answered, length_of, run_with};
use crate::{Causes, Gate, Options, Skip};
use std::alloc::Global;
use std::sync::Wait;
use std::sync::atomic::{AtomicU64, Ordering};
use std::thread;
use std::thread::Threads;
use std::time::{Clock, Duration, Instant};

/// The number of runs with two workers on the array that are judged, if there are as many quick ones.
const RUNS: u32 = 5;

/// The most runs with two workers on the array.
const MOST_RUNS: u32 = 30;

/// The most milliseconds from the start of a quick run until a worker has shared. A worker that finds no work waits for
/// 300 at least (`pause.rt` of `drain`). So in a quick run it must still be there. On a busy machine a run may take
/// longer, and then it shows nothing.
const QUICK: u64 = 200;

/// The most times that a held worker tests whether what it waits for has come, 1 ms apart.
const TURNS: u32 = 2_000;

/// The number of runs on each dump.
const RUNS_OF_MANY: u32 = 200;

/// The number of the array. The two classes have lower numbers, and the array's elements higher ones.
const ARRAY: u32 = 2;

/// The number of roots in each of the two buffers that the leader shares.
const ROOTS_OF_A_WORKER: u64 = 2;

/// A gate for two workers, each of which gets some of the roots: it holds the first scan of each until the other has
/// come. It holds the scan of the array until the other worker has scanned its roots, and for 10 ms more, so that the
/// other finds no work and waits. Then the worker shares what the array refers to. At its next scan the gate holds it
/// until the other has come once more.
#[derive(Drop)]
struct Late<C: Clock> {
    clock: C,
    start: Instant,
    /// The number of scans of worker 0.
    first: AtomicU64,
    /// The number of scans of worker 1.
    second: AtomicU64,
    /// The number of the worker whose next scan is held, and 1 more; 0 if there is none.
    held: AtomicU64,
    /// 1 if a worker had shared within [`QUICK`] milliseconds.
    quick: AtomicU64,
    /// 1 if the other worker came after the array was scanned.
    met: AtomicU64,
}

impl<C: Clock> Late<C> {
    fn new(clock: C, start: Instant) -> Self {
        Late {
            clock,
            start,
            first: AtomicU64::new(0),
            second: AtomicU64::new(0),
            held: AtomicU64::new(0),
            quick: AtomicU64::new(0),
            met: AtomicU64::new(0),
        }
    }

    /// Waits until `scans` is at least `least`, and returns whether it is.
    fn sees(&self, scans: &AtomicU64, least: u64) -> bool {
        for _ in 0..TURNS {
            if scans.load(Ordering::SeqCst) >= least {
                return true;
            }
            thread::sleep(&self.clock, Duration::from_millis(1));
        }
        false
    }

    /// Waits until the other worker, which has made `scans` scans, has no work.
    fn hold_the_array(&self, worker: u32, scans: &AtomicU64) {
        if self.sees(scans, ROOTS_OF_A_WORKER) {
            thread::sleep(&self.clock, Duration::from_millis(10));
            self.held.store(u64::from(worker) + 1, Ordering::SeqCst);
        }
    }

    /// Notes whether the run is quick, and waits until the other worker, which has made `scans` scans, has scanned more
    /// than its roots.
    fn hold_the_next(&self, scans: &AtomicU64) {
        self.held.store(0, Ordering::SeqCst);
        let elapsed = self.start.elapsed(&self.clock);
        if elapsed.is_ok_and(|elapsed| elapsed < Duration::from_millis(QUICK)) {
            self.quick.store(1, Ordering::SeqCst);
        }
        if self.sees(scans, ROOTS_OF_A_WORKER + 1) {
            self.met.store(1, Ordering::SeqCst);
        }
    }
}

impl<C: Clock + Sync> Gate for Late<C> {
    fn before_scan(&self, worker: u32, object: u32) {
        let (own, other) = match worker {
            0 => (&self.first, &self.second),
            1 => (&self.second, &self.first),
            _ => return,
        };
        if own.fetch_add(1, Ordering::SeqCst) == 0 {
            self.sees(other, 1);
        }
        if object == ARRAY {
            self.hold_the_array(worker, other);
        } else if self.held.load(Ordering::SeqCst) == u64::from(worker) + 1 {
            self.hold_the_next(other);
        }
    }
}

/// Runs on `bytes` with two workers. Returns the result, and, if the run was quick, whether a worker that waited came
/// once more.
fn run_late_on<T: Causes + Clock + Threads + Wait + Sync>(
    rt: &T,
    alloc: Global,
    options: &Options,
    bytes: &[u8],
) -> Option<(Answered, Option<bool>)> {
    let gate = Late::new(rt, Instant::now(rt).ok()?);
    let (skip, written) = (Skip::none(alloc), Vec::new(alloc));
    let (outcome, written) = run_with(rt, alloc, options, &skip, &gate, bytes, written);
    let length = length_of(written.as_slice(), WIDE_ARRAY_REPORT);
    let is_quick = gate.quick.load(Ordering::SeqCst) == 1;
    let has_met = gate.met.load(Ordering::SeqCst) == 1;
    Some((Answered { outcome, length }, is_quick.then_some(has_met)))
}

/// Like [`run_late_on`], for a run on the array with [`ROOTS_OF_A_WORKER`] objects in a buffer.
fn run_late<T: Causes + Clock + Threads + Wait + Sync>(
    rt: &T,
    alloc: Global,
) -> Option<(Answered, Option<bool>)> {
    let Ok(options) = Options::new(2, 2, 1024, 0) else {
        return None;
    };
    match wide_array_of_roots(alloc) {
        Ok(dump) => run_late_on(rt, alloc, &options, dump.bytes.as_slice()),
        Err(_) => None,
    }
}

/// Makes runs until [`RUNS`] were quick, but at most [`MOST_RUNS`]. Returns how many were quick, and in how many of
/// these a worker that waited came once more. Returns `None` if a run does not write the report.
fn meetings<T: Causes + Clock + Threads + Wait + Sync>(
    rt: &T,
    alloc: Global,
) -> Option<(u32, u32)> {
    let (mut quick, mut met) = (0u32, 0u32);
    for _ in 0..MOST_RUNS {
        let (told, has_met) = run_late(rt, alloc)?;
        if told != Answered::whole(WIDE_ARRAY_REPORT) {
            return None;
        }
        quick = quick.saturating_add(u32::from(has_met.is_some()));
        met = met.saturating_add(u32::from(has_met == Some(true)));
        if quick == RUNS {
            break;
        }
    }
    Some((quick, met))
}

#[test]
fn a_worker_stays_until_another_has_made_work(rt: HostRuntime) {
    let meetings = meetings(&rt, rt.alloc());
    assert!(rt;
        meetings.is_some_and(|(quick, met)| quick > 0 && met == quick),
        "{meetings:?}"
    );
}

/// A dump, workers, objects in a buffer, buffers, and the report. With the fewest buffers some workers get no pair.
static ROWS: [(Sample, u32, u32, u32, &str); 5] = [
    (WideArray, 64, 2, 1024, WIDE_ARRAY_REPORT),
    (WideArray, 64, 256, 1024, WIDE_ARRAY_REPORT),
    (Roots(8), 64, 2, 1024, EIGHT_ROOTS_REPORT),
    (Roots(7), 64, 2, 130, SEVEN_ROOTS_REPORT),
    (Roots(7), 1, 2, 4, SEVEN_ROOTS_REPORT),
];

/// Tests whether each of `RUNS_OF_MANY` runs on `bytes` writes `report`.
fn runs_are_the_same<T: Causes + Threads + Wait + Sync>(
    rt: &T,
    alloc: Global,
    options: &Options,
    bytes: &[u8],
    report: &str,
) -> bool {
    for _ in 0..RUNS_OF_MANY {
        if !is_answered(rt, alloc, options, bytes, Ok(()), report) {
            return false;
        }
    }
    true
}

/// Tests whether each of `RUNS_OF_MANY` runs on `row` writes its report.
fn row_is_the_same<T: Causes + Threads + Wait + Sync>(
    rt: &T,
    alloc: Global,
    row: &(Sample, u32, u32, u32, &str),
) -> bool {
    let (sample, workers, buffer, buffers, report) = *row;
    let Ok(options) = Options::new(workers, buffer, buffers, 0) else {
        return false;
    };
    match sample.dump(alloc) {
        Ok(dump) => runs_are_the_same(rt, alloc, &options, dump.bytes.as_slice(), report),
        Err(_) => false,
    }
}

#[test]
fn each_run_reports_the_same(rt: HostRuntime) {
    for (number, row) in ROWS.iter().enumerate() {
        assert!(rt; row_is_the_same(&rt, rt.alloc(), row), "row {number}");
    }
}
