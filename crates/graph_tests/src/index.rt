//! Tests of `id_index`.
//!
//! Four files make an index as callers do: `making` of a list of identifiers, `narrow` of narrow entries, `wide` of
//! whole identifiers, and `joining` of lists that are gathered apart. `beside` compares an index with a search one by
//! one, which goes through the list of identifiers. `lists` does so for a table of lists while each allocation fails in
//! turn, and `random_lists` for many random lists. `guessed` tests that nearly all look-ups need no search if
//! identifiers are evenly spread. `costs` bounds the bytes of an index while it is made, and what its look-ups read.

mod beside;
mod costs;
mod guessed;
mod joining;
mod lists;
mod making;
mod narrow;
mod random_lists;
mod wide;
