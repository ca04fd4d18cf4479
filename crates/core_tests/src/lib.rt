//! Tests of `tagged_index` and of `mark_core`. They are in a crate of their own, so that the two crates are proved
//! once, and not again with their tests. They use public calls only.
//!
//! `head_word` tests the words of heads. `world` has lists of events, with what is possible after them and how they
//! end. `head_example` and `world_example` have the examples that the two crates quote.

#![tactic(auto)]

#[cfg(test)]
mod head_example;
#[cfg(test)]
mod head_word;
#[cfg(test)]
mod world;
#[cfg(test)]
mod world_example;
