//! Tests of memory: each allocation of a replay fails in turn, and reading a world makes none.

use super::lists::{ALL_FINISHED, List, OVERTAKEN};
use super::{End, ends, replayed};
use limited_heap::LimitedHeap;
use mark_core::OutOfMemory;
use std::alloc::Global;

/// Lists that allocate, and how they end.
static TAKING: [(List, End); 2] = [(OVERTAKEN, End::Overtaken), (ALL_FINISHED, End::Finished)];

/// Returns whether the result of a replay of `list` on `heap` is right, and whether `heap` refused no request. The
/// result is right if the list ends as `end`, or if the replay is out of memory and `heap` refused a request.
fn is_right_or_told(heap: &LimitedHeap<Global>, list: &List, end: End) -> (bool, bool) {
    let right = match ends(heap, list, end) {
        Ok(right) => right,
        Err(OutOfMemory) => heap.refusals() > 0,
    };
    (right, heap.refusals() == 0)
}

/// Returns how many requests a replay of `list` makes if none is refused.
fn requests_of(alloc: Global, list: &List, end: End) -> u64 {
    let heap = LimitedHeap::new(alloc, u64::MAX);
    let _right = is_right_or_told(&heap, list, end);
    u64::MAX.saturating_sub(heap.requests_left())
}

/// Like [`is_right_or_told`], on a heap that grants the first `requests` requests only.
fn where_the_rest_is_refused(alloc: Global, requests: u64, list: &List, end: End) -> (bool, bool) {
    let heap = LimitedHeap::new(alloc, requests);
    is_right_or_told(&heap, list, end)
}

/// Like [`is_right_or_told`], on a heap that refuses only request number `request`, counted from 0.
fn where_one_is_refused(alloc: Global, request: u64, list: &List, end: End) -> (bool, bool) {
    let heap = LimitedHeap::refusing(alloc, request);
    is_right_or_told(&heap, list, end)
}

/// Refuses each request of a replay in turn: first with all later requests, then only that request. The last round
/// refuses none. One heap serves the whole replay, so the allocations of the steps are refused as well as those of the
/// world.
#[test]
fn each_request_may_be_refused(rt: HostRuntime) {
    let alloc = rt.alloc();
    for (list, end) in &TAKING {
        let requests = requests_of(alloc, list, *end);
        assert!(rt; requests > 4);
        for request in 0..=requests {
            let wanted = (true, request == requests);
            let rest = where_the_rest_is_refused(alloc, request, list, *end);
            assert_eq!(rt; rest, wanted, "{request} and all behind it");
            let alone = where_one_is_refused(alloc, request, list, *end);
            assert_eq!(rt; alone, wanted, "{request} alone");
        }
    }
}

/// Returns how many requests `heap` still grants after a replay of `list`, and whether the world is right. Returns
/// `(0, false)` if `list` is not possible.
fn left_behind(
    heap: &LimitedHeap<Global>,
    list: &List,
    end: End,
) -> Result<(u64, bool), OutOfMemory> {
    match replayed(heap, list)? {
        Some(world) => Ok((heap.requests_left(), end.is_of(&world))),
        None => Ok((0, false)),
    }
}

/// Replays `list` on a heap that grants exactly the requests that `list` makes. Returns how many requests the heap
/// still grants after the replay, whether the world is right, and how many requests were refused until the world was
/// read.
fn looked_at(alloc: Global, list: &List, end: End) -> Result<(u64, bool, u64), OutOfMemory> {
    let heap = LimitedHeap::new(alloc, requests_of(alloc, list, end));
    let (left, right) = left_behind(&heap, list, end)?;
    Ok((left, right, heap.refusals()))
}

/// Reading a world makes no allocation: the world is read while the heap would refuse each request.
#[test]
fn looking_takes_no_memory(rt: HostRuntime) -> Result<(), OutOfMemory> {
    for (list, end) in &TAKING {
        assert_eq!(rt; looked_at(rt.alloc(), list, *end)?, (0, true, 0));
    }
    Ok(())
}
