//! Tests a call on heaps that refuse each of its requests in turn.

ghost use Rattle.std.specs.Prelude.{◌<◌, IfSome};

use crate::heap::LimitedHeap;
use std::alloc::Global;

/// More requests than a tested call makes.
const MANY: u64 = 4_096;

/// Calls `is_right` on heaps that refuse request 0, 1, 2 and so on: only that one if `alone`, otherwise that one and
/// all later ones. Stops at the first heap that refuses nothing, and returns how many requests it grants before its
/// first refusal. Returns `None` if `is_right` returns `false`, or if each of 4,096 heaps refuses a request.
fn requests_with<F: Fn(&LimitedHeap<Global>) -> bool>(
    alloc: Global,
    is_right: &F,
    alone: bool,
) -> Option<u64>
    requires { F.IsAlwaysCallable is_right.now }
    ensures few { IfSome result (λ n. n < 4096) }
{
    for request in 0..MANY {
        let heap = match alone {
            true => LimitedHeap::refusing(alloc, request),
            false => LimitedHeap::new(alloc, request),
        };
        if !is_right(&heap) {
            return None;
        }
        if heap.refusals() == 0 {
            return Some(request);
        }
    }
    None
}

/// Tests a call on heaps that refuse each of its requests in turn: in a first round together with all later requests,
/// in a second one alone. `is_right` makes the call on a heap and tests its result. It must accept the complete result,
/// and it must accept out of memory only if the heap refused a request. Each of the two rounds ends with a heap that
/// refuses nothing. Returns the number of requests if `is_right` accepts every result and both rounds count the same
/// number. Returns `None` otherwise, and if the call makes 4,096 requests or more.
pub fn requests_of<F: Fn(&LimitedHeap<Global>) -> bool>(alloc: Global, is_right: F) -> Option<u64>
    requires { F.IsAlwaysCallable is_right }
    ensures few { IfSome result (λ n. n < 4096) }
{
    let requests = requests_with(alloc, &is_right, false);
    if requests_with(alloc, &is_right, true) != requests {
        return None;
    }
    requests
}
