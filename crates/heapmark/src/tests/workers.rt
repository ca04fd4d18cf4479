//! Runs with several workers: which calls of the gate they make, and that the number of workers changes no report.

use super::dumps::{EIGHT_ROOTS_REPORT, roots_alone};
use super::{Answered, length_of, run_with};
use crate::{Causes, Gate, Options, Skip};
use std::alloc::Global;
use std::sync::Wait;
use std::sync::atomic::{AtomicU64, Ordering};
use std::thread;
use std::thread::Threads;
use std::time::{Clock, Duration};

/// The report of 60 roots, enough for eight workers with buffers of two objects.
const MANY_ROOTS: &str = "        60               0  A
         1               0  <class>
        61               0  (reachable)
         0               0  (unreachable)
         0               0  (unresolved)
";

/// How often a worker that waits tests whether the others have come, 1 ms apart.
const TURNS: u32 = 2_000;

/// A gate that holds each worker at its first scan until every worker has begun one, for two seconds at most. It counts
/// all calls.
#[derive(Drop)]
struct Meeting<C: Clock> {
    clock: C,
    workers: u32,
    /// A bit for each worker, set once it has come.
    come: AtomicU64,
    /// The number of workers that waited in vain.
    late: AtomicU64,
    calls: AtomicU64,
    /// A bit for each object, set once the gate was called for it.
    objects: AtomicU64,
    by_others: AtomicU64,
}

impl<C: Clock> Meeting<C> {
    fn new(clock: C, workers: u32) -> Self {
        Meeting {
            clock,
            workers,
            come: AtomicU64::new(0),
            late: AtomicU64::new(0),
            calls: AtomicU64::new(0),
            objects: AtomicU64::new(0),
            by_others: AtomicU64::new(0),
        }
    }

    fn wait_for_all(&self) {
        for _ in 0..TURNS {
            if self.come.load(Ordering::SeqCst).count_ones() == self.workers {
                return;
            }
            thread::sleep(&self.clock, Duration::from_millis(1));
        }
        self.late.fetch_add(1, Ordering::SeqCst);
    }
}

impl<C: Clock + Sync> Gate for Meeting<C> {
    fn before_scan(&self, worker: u32, object: u32) {
        self.calls.fetch_add(1, Ordering::SeqCst);
        self.objects.fetch_or(1 << (object % 64), Ordering::SeqCst);
        if worker >= self.workers {
            self.by_others.fetch_add(1, Ordering::SeqCst);
            return;
        }
        let bit = 1 << (worker % 64);
        if self.come.fetch_or(bit, Ordering::SeqCst) & bit == 0 {
            self.wait_for_all();
        }
    }
}

/// Returns the result of a run on `bytes` whose workers meet at the gate; and four numbers of the gate: the workers
/// that waited in vain, all calls, a bit for each object for which it was called, and the calls by the leader.
fn run_meeting_on<T: Causes + Clock + Threads + Wait + Sync>(
    rt: &T,
    alloc: Global,
    options: &Options,
    workers: u32,
    bytes: &[u8],
    report: &str,
) -> (Answered, [u64; 4]) {
    let gate = Meeting::new(rt, workers);
    let (skip, written) = (Skip::none(alloc), Vec::new(alloc));
    let (outcome, written) = run_with(rt, alloc, options, &skip, &gate, bytes, written);
    let counts = [
        gate.late.load(Ordering::SeqCst),
        gate.calls.load(Ordering::SeqCst),
        gate.objects.load(Ordering::SeqCst),
        gate.by_others.load(Ordering::SeqCst),
    ];
    let length = length_of(written.as_slice(), report);
    (Answered { outcome, length }, counts)
}

/// Like [`run_meeting_on`], for a run on `roots` roots.
fn run_meeting<T: Causes + Clock + Threads + Wait + Sync>(
    rt: &T,
    alloc: Global,
    workers: u32,
    roots: u32,
    report: &str,
) -> Option<(Answered, [u64; 4])> {
    let Ok(options) = Options::new(workers, 2, 1024, 0) else {
        return None;
    };
    match roots_alone(alloc, u64::from(roots)) {
        Ok(dump) => Some(run_meeting_on(
            rt,
            alloc,
            &options,
            workers,
            dump.bytes.as_slice(),
            report,
        )),
        Err(_) => None,
    }
}

#[test]
fn workers_meet_at_the_gate(rt: HostRuntime) {
    let cases: [(u32, u32, &str); 3] = [
        (2, 8, EIGHT_ROOTS_REPORT),
        (4, 8, EIGHT_ROOTS_REPORT),
        (8, 60, MANY_ROOTS),
    ];
    for (workers, roots, report) in cases {
        let told = run_meeting(&rt, rt.alloc(), workers, roots, report);
        let all = 2u64.wrapping_shl(roots).wrapping_sub(1);
        let counts = [0, u64::from(roots) + 1, all, 0];
        assert_eq!(rt;
            told,
            Some((Answered::whole(report), counts)),
            "{workers} workers"
        );
    }
}
