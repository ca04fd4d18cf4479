//! Marking the reachable objects of a heap.
//!
//! `mark` claims the roots of a graph, starts a thread for each worker, and returns which objects were marked, and for
//! each row the number and the bytes of its marked objects. Its clause `exactly_reachable` is the theorem: the marked
//! objects are exactly those that a path of references joins to a root, whatever the number of workers and the order of
//! their steps.
//!
//! From `crates/drain_tests/src/memory.rt`, which is proved and run as a test:
//!
//!     let heap = LimitedHeap::new(alloc, requests);
//!     let marked = mark(rt, &heap, graph, options, &NoGate)?;
//!     let left = heap.requests_left();
//!     let told = told(&marked);
//!     Ok((left, told, heap.refusals()))
//!
//! README.md beside this folder has a list of the calls, and says where to read on; `docs/MARKING.md` defines the
//! words.

#![tactic(auto)]

mod hooks;
pub mod inside;
mod job;
mod joins;
mod laws;
mod leader;
mod marked;
mod measured;
mod options;
mod paired_worker;
mod pause;
mod prepared_leader;
mod recently_seen;
mod scanned_object;
mod sum;
mod supplies;
mod tally;
mod walk;
mod walked_graph;
mod worker_threads;

pub use hooks::{Gate, NoGate};
pub use laws::one_marking;
pub use leader::mark;
pub use marked::{Marked, RunFault};
pub use options::{BadOptions, Options};
pub use worker_threads::RefusedThread;
