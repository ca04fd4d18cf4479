//! Tests of `command_line`, in a crate of their own, so that `command_line` is not proved a second time with its tests.
//! They use only public functions. This crate exports nothing.
//!
//! `words` has what no clause says: that right words are taken, and by which kinds of error others are refused.

#![tactic(auto)]

#[cfg(test)]
mod words;
