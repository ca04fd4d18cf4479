//! Tests which calls `requests_of` finds right, and how many requests it counts.

use limited_heap::{LimitedHeap, requests_of};
use std::alloc::Global;

/// When the result of a call is wrong.
#[derive(Clone, Copy, Debug)]
enum Wrong {
    Never,
    /// If no request is refused.
    InFull,
    /// If the request after a refused one is granted.
    AfterOne,
    /// If the request after a refused one is refused too.
    AfterAll,
}

/// Tests whether `heap` grants a block.
fn is_granted(heap: &LimitedHeap<Global>) -> bool {
    Box::new(heap, 7u8).is_ok()
}

/// Makes `requests` requests on `heap`. If one is refused, makes one more and stops. Returns `false` in the case that
/// `wrong` names.
fn is_right(heap: &LimitedHeap<Global>, requests: u32, wrong: Wrong) -> bool {
    for _ in 0..requests {
        if !is_granted(heap) {
            let next = is_granted(heap);
            return match wrong {
                Wrong::Never | Wrong::InFull => true,
                Wrong::AfterOne => !next,
                Wrong::AfterAll => next,
            };
        }
    }
    !matches!(&wrong, Wrong::InFull)
}

/// The number of requests that a call makes if none is refused, when its result is wrong, and what `requests_of`
/// returns.
const CALLS: [(u32, Wrong, Option<u64>); 8] = [
    (0, Wrong::Never, Some(0)),
    (1, Wrong::Never, Some(1)),
    (40, Wrong::Never, Some(40)),
    (3, Wrong::InFull, None),
    (3, Wrong::AfterOne, None),
    (3, Wrong::AfterAll, None),
    (0, Wrong::InFull, None),
    (0, Wrong::AfterAll, Some(0)),
];

#[test]
fn requests_are_counted_if_each_result_is_right(rt: HostRuntime) {
    for (requests, wrong, wanted) in CALLS {
        let counted = requests_of(rt.alloc(), |heap| is_right(heap, requests, wrong));
        assert_eq!(rt; counted, wanted, "{requests} requests, wrong: {wrong:?}");
    }
}
