//! Tests of `heap_graph`, and of `id_index` below it (`index`). They are in a crate of their own, so that these two
//! crates are not proved again together with their tests. They use only public calls. The crate exports nothing.
//!
//! `worked` has dumps with their expected graphs, and `skipped` has dumps of which some fields are not followed.
//! `chains` and `faults` have dumps that are not linked, with the first fault of each, and `faults_in_parts` tests a
//! large dump with such faults. `gathered` has dumps of few objects that are nevertheless gathered in parts. `graphs`
//! compares a graph with the expected one, `walks` tests the number of remaining identifiers of a walk, `named` what
//! identifiers name, and `kinds` a visit by the kind of its object. `memory` lets each allocation fail in turn, and
//! `peaks` bounds the bytes that a graph takes while it is built. `skips` has texts that are lists of fields and texts
//! that are not, and `met` tests which entries of a list name a field of a dump. `texts` tests the texts of refusals,
//! and `sizes` the size of a visit.

#![tactic(auto)]

#[cfg(test)]
mod chains;
#[cfg(test)]
mod faults;
#[cfg(test)]
mod faults_in_parts;
#[cfg(test)]
mod gathered;
#[cfg(test)]
mod graphs;
#[cfg(test)]
mod index;
#[cfg(test)]
mod kinds;
#[cfg(test)]
mod memory;
#[cfg(test)]
mod met;
#[cfg(test)]
mod named;
#[cfg(test)]
mod peaks;
#[cfg(test)]
mod sizes;
#[cfg(test)]
mod skipped;
#[cfg(test)]
mod skips;
#[cfg(test)]
mod texts;
#[cfg(test)]
mod unordered;
#[cfg(test)]
mod walks;
#[cfg(test)]
mod worked;
