//! Why no list of fields was made.

use std::fmt;
use thiserror::Error;

/// Why no list of fields was made.
#[derive(Clone, Copy, Debug, PartialEq, Eq, Error)]
pub enum SkipRefusal {
    /// The text is not a list of 1 to 64 entries `Class.field` separated by commas.
    BadOptions,
    /// An allocation failed.
    OutOfMemory,
}

impl fmt::Display for SkipRefusal {
    ghost use Rattle.std.specs.Prelude.{Some};
    ghost use Rattle.heap_graph.specs.SkipRefusals.{skip_refusal_text};

    ghost output = { λ refusal. Some (skip_refusal_text refusal) };

    fn fmt<W: fmt::Write>(&self, f: &mut fmt::Formatter<W>) -> fmt::Result {
        match self {
            SkipRefusal::BadOptions => write!(f, "the list of skipped fields is malformed"),
            SkipRefusal::OutOfMemory => write!(f, "out of memory"),
        }
    }
}
