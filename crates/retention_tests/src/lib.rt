//! Tests of `retention` and of the crates of labels below it. They are in a crate of their own, so that those crates
//! are proved once, and not again with their tests. They use public calls only. This crate exports nothing.
//!
//! `tables` has a worked dump with lists of labels, the table of each, and lists and dumps that are refused. `memory`
//! lets each allocation of a run fail in turn.

#![tactic(auto)]

#[cfg(test)]
mod memory;
#[cfg(test)]
mod tables;
