//! The world of a marking with many workers, its events, and the law that they keep.
//!
//! Everything here is pure: no thread, no atomic word. A `World` is what all workers use (two stacks of buffers, the
//! marks, the idle word) and the account of each worker, with the objects in its charge. An `Event` is one atomic step
//! of one worker. `step` makes an event if it is possible. The proofs of the marking rest on the theorem
//! `all_runs_keep_law`: after every list of possible events, in whatever order threads made them, each claimed object
//! is in exactly one place, and all successors of each finished object are marked.
//!
//! From `crates/core_tests/src/world_example.rt`, which is proved and run as a test:
//!
//!     let mut world = World::new(alloc, 2, vec![in alloc; 0]?, vec![in alloc; (0, 1)]?, 4, 2, 0)?;
//!     for kind in [Kind::Claim(0), Kind::Claim(1), Kind::Finish(0), Kind::Finish(1)] {
//!         let Some(next) = step(alloc, world, Event { worker: 0, kind })? else {
//!             panic!(rt; "each of these is possible");
//!         };
//!         world = next;
//!     }
//!     assert_eq!(rt; world.marks(), &[2, 2][..]);
//!
//! `specs/Law.antt` defines the law, `specs/Events.antt` the events. `docs/MARKING.md` has the law in words.

#![tactic(auto)]

mod account;
mod edges;
mod event;
mod law;
mod look;
mod numbers;
mod out_of_memory;
mod setup;
mod state;
mod which;
mod world;

pub use edges::Edges;
pub use event::{Event, Kind};
pub use law::all_runs_keep_law;
pub use out_of_memory::OutOfMemory;
pub use which::Which;
pub use world::{World, step};
