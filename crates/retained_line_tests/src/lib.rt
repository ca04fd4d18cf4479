//! Tests of `retained_line`, in a crate of their own, so that `retained_line` is not proved a second time with its
//! tests. They use only public functions. This crate exports nothing.
//!
//! `words` has what no clause says: that right words are taken, by which kinds of error others are refused, and the
//! whole texts that clap makes.

#![tactic(auto)]

#[cfg(test)]
mod texts;
#[cfg(test)]
mod words;
