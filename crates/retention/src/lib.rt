//! From the bytes of a heap dump and a text of labels to the table of what each label holds.
//!
//! `run` reads the labels and the dump, builds the graph, finds for each reachable object the labels without which it
//! would not be reachable, and writes the table; or returns why it does not. `specs/HeldTable.antt` says what the table
//! is, `docs/LABELS.md` has labels and table in words.
#![tactic(auto)]

mod fault;
mod pipeline;

pub use fault::Fault;
pub use histogram::Counted;
pub use pipeline::run;
