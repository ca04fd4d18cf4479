//! Tests of `work_pair`: the order in which objects are got, last tags, running out of memory, and that threads end.
//!
//! `hand` has the calls of a pair in a pool whose objects are all roots, and `runs` makes the steps that tables list.
//! `vectors` has small runs, `trace` the buffers after up to nine puts, `stopped` pairs that a last tag stops, `memory`
//! pairs that run out of memory, and `threads` four threads on one pool.

mod hand;
mod memory;
mod runs;
mod stopped;
mod threads;
mod trace;
mod vectors;
