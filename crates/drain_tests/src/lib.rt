//! Tests of `drain`, in a crate of their own, so that `drain` is proved once and not again with its tests. They call
//! what callers may call, and `drain::inside`. The crate exports nothing.
//!
//! `dumps` has the dumps that are marked, `faults` the faults of markings. `refused_threads` refuses threads, and
//! `several_refused_workers` stops several workers. `gate_calls` and `leading` test who calls the hook before a scan,
//! and when. `memory` has failing allocations, `peaks` the memory of a marking. `tallies` and `sums` test what is
//! counted, `sums` at its bounds. `texts` tests the texts of the faults.

#![tactic(auto)]

#[cfg(test)]
mod dumps;
#[cfg(test)]
mod faults;
#[cfg(test)]
mod gate_calls;
#[cfg(test)]
mod leading;
#[cfg(test)]
mod memory;
#[cfg(test)]
mod peaks;
#[cfg(test)]
mod refused_threads;
#[cfg(test)]
mod several_refused_workers;
#[cfg(test)]
mod sums;
#[cfg(test)]
mod tallies;
#[cfg(test)]
mod texts;
