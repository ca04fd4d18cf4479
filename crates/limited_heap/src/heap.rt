//! The allocator.

ghost use Rattle.std.specs.Prelude.{◌≡◌, ◌+◌, ◌<◌, ◌≤◌, ◌^◌, ℕ, Some, None};
ghost use Rattle.limited_heap.specs.Limit.{request_limit, refused_request};

use crate::bytes::Usage;
use crate::quota::Quota;
use std::alloc::{AllocError, Allocator, Global};

/// A heap that passes requests for memory to an inner allocator, and refuses only one of them, or that one and all
/// later ones. A collection takes a `&` to the heap as its allocator.
#[derive(Drop)]
pub struct LimitedHeap<A: Allocator = Global> {
    inner: A,
    quota: Quota,
}

impl<A: Allocator> LimitedHeap<A> {
    /// Creates a heap on `inner` that grants the first `requests` requests and refuses all later ones. Each new block
    /// is a request, and so is each growth or shrinking of a block, which moves it to a new one. Freeing a block is
    /// not.
    pub fn new(inner: A, requests: u64) -> LimitedHeap<A>
        ensures limit { request_limit result ≡ requests }
        ensures rest { refused_request result ≡ None }
    {
        LimitedHeap {
            inner,
            quota: Quota::new(requests, false),
        }
    }

    /// Creates a heap on `inner` that refuses only request number `request`, counted from 0. Each new block is a
    /// request, and so is each growth or shrinking of a block, which moves it to a new one.
    pub fn refusing(inner: A, request: u64) -> LimitedHeap<A>
        ensures refuses { refused_request result ≡ Some request }
    {
        LimitedHeap {
            inner,
            quota: Quota::new(request, true),
        }
    }

    /// Returns how many more requests the heap grants before it refuses one: 0 after the first refusal.
    pub fn requests_left(&self) -> u64
        ensures within { result ≤ request_limit self.now }
    {
        self.quota.left()
    }

    /// Returns how many requests the heap refused because of their number. It does not count those that it passed to
    /// `inner` and `inner` refused.
    pub fn refusals(&self) -> u64
        ensures beyond { result + request_limit self.now < 2 ^ 64 }
        ensures one { (n : ℕ) → refused_request self.now ≡ Some n → result ≤ 1 }
    {
        self.quota.refused()
    }

    /// Returns the bytes that the heap's blocks take now, and the most that they took at the same time. A block that
    /// grows or shrinks counts twice while it moves. A block that `inner` refuses stays counted.
    pub fn usage(&self) -> Usage
        ensures { result.in_use ≤ result.peak }
    {
        self.quota.usage()
    }
}

unsafe impl<A: Allocator> Allocator for LimitedHeap<A> {
    ghost dealloc_token = { λ heap ty ptr. A.dealloc_token heap.inner ty ptr };

    fn allocate(&self, size: usize, align: usize) -> Result<*mut u8, AllocError> {
        if self.quota.take(size) {
            self.inner.allocate(size, align)
        } else {
            Err(AllocError)
        }
    }

    unsafe fn deallocate(&self, ptr: *mut u8, size: usize, align: usize) {
        self.inner.deallocate(ptr, size, align);
        self.quota.give_back(size);
    }
}
