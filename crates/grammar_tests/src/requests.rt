//! Counts and refuses allocations to test whether a dump is read in parts, in how many, and only once.

use crate::parts::{FILE, is_of_the_file};
use hprof_grammar::{Team, read};
use limited_heap::LimitedHeap;
use std::alloc::Global;
use std::thread::Threads;

/// Teams that read the file in parts: the number of threads, and the fewest objects from which on they share work. The
/// file counts as three objects, for its 215 bytes. Two threads read it in two parts.
const IN_PARTS: [(u32, u32); 5] = [(2, 0), (2, 3), (3, 0), (4, 0), (64, 0)];

/// Teams whose calling thread reads the whole file: the number of threads, and the fewest objects from which on they
/// share work.
const IN_ONE: [(u32, u32); 4] = [(0, 0), (1, 0), (2, 4), (64, u32::MAX)];

/// Tests whether `team` reads the file on `heap`.
fn reads<T: Threads + Sync>(team: &Team<'_, T>, heap: &LimitedHeap<Global>) -> bool {
    match read(team, heap, &FILE) {
        Ok(dump) => is_of_the_file(&dump),
        Err(_) => false,
    }
}

/// Returns the number of requests for memory that `team` makes to read the file if none is refused.
fn requests_of<T: Threads + Sync>(team: &Team<'_, T>, alloc: Global) -> u64 {
    let heap = LimitedHeap::new(alloc, u64::MAX);
    let _read = reads(team, &heap);
    u64::MAX.saturating_sub(heap.requests_left())
}

/// Lets `team` read the file once for each request that it makes, on a heap that refuses only this request. Tests
/// whether all of these reads succeed if `wanted` is `true`, or all fail if it is `false`.
fn reads_without_one<T: Threads + Sync>(team: &Team<'_, T>, alloc: Global, wanted: bool) -> bool {
    for request in 0..requests_of(team, alloc) {
        if reads(team, &LimitedHeap::refusing(alloc, request)) != wanted {
            return false;
        }
    }
    true
}

/// If a request is refused while parts are read, the calling thread reads the whole file afterwards, and succeeds. It
/// succeeds whichever request of a read without a refusal is refused. So such a read makes all its requests for its
/// parts, and none for the whole file: if one for the whole file were refused, the read would fail.
#[test]
fn read_in_parts_alone(rt: HostRuntime) {
    for (threads, fewest) in IN_PARTS {
        let team = Team::sharing_from(&rt, threads, fewest);
        assert!(rt; requests_of(&team, rt.alloc()) > 0);
        let read = reads_without_one(&team, rt.alloc(), true);
        assert!(rt; read, "{threads} threads, from {fewest} objects on");
    }
}

/// If the calling thread reads the whole file, the read fails whichever request is refused.
#[test]
fn read_in_one_part(rt: HostRuntime) {
    for (threads, fewest) in IN_ONE {
        let team = Team::sharing_from(&rt, threads, fewest);
        assert!(rt; requests_of(&team, rt.alloc()) > 0);
        let refused = reads_without_one(&team, rt.alloc(), false);
        assert!(rt; refused, "{threads} threads, from {fewest} objects on");
    }
}

/// Returns the number of requests that `threads` threads make to read the file.
fn requests_by<T: Threads + Sync>(rt: &T, alloc: Global, threads: u32) -> u64 {
    requests_of(&Team::sharing_from(rt, threads, 0), alloc)
}

/// Each part allocates, so more threads make more requests. They would not if each record were a part.
#[test]
fn parts_by_threads(rt: HostRuntime) {
    let [two, four, many] = [2, 4, 64].map(|threads| requests_by(&rt, rt.alloc(), threads));
    assert!(rt; two < four && four < many, "{two}, {four}, {many} requests");
}
