//! A heap for tests that run out of memory. It passes requests to an inner allocator, and refuses only the request of a
//! given number, or that one and all later ones. It also counts the bytes of its blocks, so that a test can bound the
//! memory that a call takes. Threads may use it together.
//!
//! From `crates/limited_heap_tests/src/requests.rt`, which is proved and run with the tests:
//!
//!     let heap = LimitedHeap::new(rt.alloc(), 1);
//!     assert_eq!(rt; (heap.requests_left(), heap.refusals()), (1, 0));
//!     let mut list = Vec::with_capacity(&heap, 2)?;
//!     assert_eq!(rt; (heap.requests_left(), heap.refusals()), (0, 0));
//!
//! `requests_of` refuses each request of a call in turn; the crate's README.md shows how a test uses it.
//! `specs/Limit.antt` defines what a clause can say of a heap: how many requests it grants before it refuses one, and
//! whether it refuses only that one.

#![tactic(auto)]

mod bytes;
mod heap;
mod in_turn;
mod quota;

pub use bytes::Usage;
pub use heap::LimitedHeap;
pub use in_turn::requests_of;
