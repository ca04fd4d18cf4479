//! Tests of `limited_heap`, by its public calls only. They are in a crate of their own, so that `limited_heap` is
//! proved once, not twice.

#![tactic(auto)]

#[cfg(test)]
mod in_turn;
#[cfg(test)]
mod limits;
#[cfg(test)]
mod requests;
#[cfg(test)]
mod usage;
