//! Tests that refuse each request for memory of the opening of a pool in turn. The other calls of a pool make no
//! request: see `worked.rt`.

use crate::edges::Roots;
use buffer_pool::{Pool, PoolFault, Which};
use limited_heap::{LimitedHeap, requests_of};
use std::alloc::{Allocator, Global};

/// Opens a pool of four buffers. Returns whether a buffer is on the empty stack.
fn has_a_buffer<A: Allocator + Copy>(alloc: A) -> Result<bool, PoolFault> {
    let (pool, mut worker) = Pool::new(alloc, &Roots { objects: 3 }, 4, 2, 0)?;
    Ok(!pool.sees_empty(&mut worker, Which::Empty))
}

/// Tests whether the opening of a pool of four buffers on `heap` succeeds, with a buffer on the empty stack, or returns
/// `OutOfMemory` after `heap` refused a request.
fn is_right_or_told(heap: &LimitedHeap<Global>) -> bool {
    match has_a_buffer(heap) {
        Ok(right) => right,
        Err(fault) => heap.refusals() > 0 && fault == PoolFault::OutOfMemory,
    }
}

/// Refuses each request of the opening of a pool of four buffers in turn. Returns the number of requests, or 0 if a
/// result is wrong.
fn requests_of_a_pool(alloc: Global) -> u64 {
    requests_of(alloc, is_right_or_told).unwrap_or(0)
}

/// Creates a heap that grants the requests of the opening of a pool of four buffers, and refuses all later ones.
pub(crate) fn heap_of_a_pool(alloc: Global) -> LimitedHeap<Global> {
    LimitedHeap::new(alloc, requests_of_a_pool(alloc))
}

#[test]
fn memory_refused_in_turn(rt: HostRuntime) {
    assert!(rt; requests_of_a_pool(rt.alloc()) > 4);
}
