//! Tests of `hprof_grammar` through its public calls. They are a crate of their own, so that `hprof_grammar` is not
//! proved a second time with them. The crate exports nothing.
//!
//! `worked_file` tests the places and faults of the worked dump of 174 bytes, `tags_and_types` each tag and type code,
//! and orders of records. `fields` reads each field of a dump with one sub-record of every kind (`dumps`). `parts`
//! tests a dump that threads read in parts, `team` the threads and parts of a team, `requests` the number of
//! allocations of a read, and `refusals` the text of a refusal. `proofs/WorkedFile.antt` computes that the worked dump
//! is a dump by the definitions.

#![tactic(auto)]

#[cfg(test)]
mod dumps;
#[cfg(test)]
mod fields;
#[cfg(test)]
mod parts;
#[cfg(test)]
mod refusals;
#[cfg(test)]
mod requests;
#[cfg(test)]
mod tags_and_types;
#[cfg(test)]
mod team;
#[cfg(test)]
mod worked_file;
