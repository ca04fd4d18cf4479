//! The two buffers that a worker fills and empties, and how it trades them with the stacks of its pool.
//!
//! `put` and `get` use memory of the worker's own. `put` uses the stacks only if both buffers are full, `get` only if
//! both are empty. An object for which there is no empty buffer goes to a list of the pair's own, so no heap is refused
//! because buffers run out. `balance` and `publish` give objects to other workers. The contract of each call says which
//! moves it made (`specs/Moves.antt`), and that no object was lost or doubled.
//!
//! Five objects are put, some are given to others, and all are got again. Proved and run with the tests, in
//! `crates/pool_tests/src/pair/vectors.rt`:
//!
//!     &[Fill(5), Balance, FullIsEmpty(false), Get(&[4, 3, 2, 1, 0])]
//!
//! The layer below is `buffer_pool`, the one above is `drain`. `docs/MARKING.md` has the words of both.
#![tactic(auto)]

mod buffers;
mod pair;
mod position;
mod steps;
mod stop;

pub use pair::Pair;
pub use stop::Stop;
