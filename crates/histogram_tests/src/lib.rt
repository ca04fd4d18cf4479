//! Tests of `histogram`, in a crate of their own, so that `histogram` is proved once and not again with its tests. They
//! use only its public functions. This crate exports nothing.
//!
//! `reading` has readers that end, fail or never end, `writing` the worked reports (`reports`) and writers that fail,
//! `names` the names in a report, `error_texts` the texts of the errors, `memory` each allocation that fails, `peaks`
//! the memory in use, and `parts` what is counted in parts. `graphs` makes the graph of a dump.

#![tactic(auto)]

#[cfg(test)]
mod error_texts;
#[cfg(test)]
mod graphs;
#[cfg(test)]
mod memory;
#[cfg(test)]
mod names;
#[cfg(test)]
mod parts;
#[cfg(test)]
mod peaks;
#[cfg(test)]
mod reading;
#[cfg(test)]
mod reports;
#[cfg(test)]
mod writing;
