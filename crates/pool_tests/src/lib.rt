//! Tests of `buffer_pool`, and of `work_pair` above it (`pair`). They are in a crate of their own, so that the two
//! crates are proved once, and not again with their tests. They make public calls only.
//!
//! Most of them test what only a run shows: that calls succeed, what happens without memory and at last tags, and that
//! threads end. `worked` has the run that `buffer_pool` quotes. `waiting` and `mark_bits` test the words of a pool's
//! table. What `forged` and a law in `mark_bits` say is proved, not run: what the table's rule excludes. They cite
//! private definitions of `buffer_pool`.

#![tactic(auto)]

#[cfg(test)]
mod claims;
#[cfg(test)]
mod edges;
#[cfg(test)]
mod forged;
#[cfg(test)]
mod graph;
#[cfg(test)]
mod idle;
#[cfg(test)]
mod mark_bits;
#[cfg(test)]
mod memory;
#[cfg(test)]
mod messages;
#[cfg(test)]
mod opening;
#[cfg(test)]
mod pair;
#[cfg(test)]
mod race;
#[cfg(test)]
mod rounds;
#[cfg(test)]
mod tags;
#[cfg(test)]
mod waiting;
#[cfg(test)]
mod worked;
