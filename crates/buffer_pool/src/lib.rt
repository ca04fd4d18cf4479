//! A pool of buffers on two lock-free stacks, and the marks of objects, for workers that mark a heap together.
//!
//! A worker pops a buffer with objects from the full stack, and claims the objects to which they refer. It pushes a
//! buffer with those that were white, and finishes each object whose references it followed. Each claim and each finish
//! is one atomic step. A try of a pop or of a push takes a few steps, and is lost if another worker came first. `pop`
//! and `push` try until a try is not lost. Each call's contract says which events of `mark_core` the call made. The law
//! of the marking holds of the pool's words between any two steps. `close` says what follows from the law once all
//! workers are joined.
//!
//! From `crates/pool_tests/src/worked.rt`, which is proved and run with the tests:
//!
//!     let (pool, worker) = pool_of_roots(alloc, OBJECTS, 4, 2)?;
//!     let (mut worker, mut other) = pool.split(worker, 1);
//!     fill_buffer(rt, &pool, &mut worker, 0, 2);
//!     finish_buffer(rt, &pool, &mut other);
//!     fill_buffer(rt, &pool, &mut worker, 2, 4);
//!     let worker = pool.join(worker, other);
//!     let marks = pool.close(worker);
//!
//! The crate's README.md has a list of the calls. `docs/MARKING.md` explains the terms.
#![tactic(auto)]

mod answers;
mod buffer;
mod held;
mod key;
pub mod layout;
mod mark_bits;
mod plays;
mod pool;
mod rules;
mod seat_view;
mod spent_tag;
mod worker;

pub use answers::{Popped, TryPopped, TryPushed};
pub use held::Held;
pub use mark_core::{Edges, Which};
pub use pool::Pool;
pub use pool::closed_marks::Marks;
pub use pool::limits::{
    LEAST_BUFFERS, LEAST_SIZE, MOST_BUFFERS, MOST_OBJECTS, MOST_SIZE, PoolFault,
};
pub use spent_tag::SpentTag;
pub use worker::Worker;
