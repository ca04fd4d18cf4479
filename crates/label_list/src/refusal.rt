//! Why no list of labels was made.

use std::fmt;
use thiserror::Error;

/// Why no list of labels was made.
#[derive(Clone, Copy, Debug, PartialEq, Eq, Error)]
pub enum ListRefusal {
    /// A line of the text is no entry: the first such line has this number, counted from 1.
    BadLine(u64),
    /// An allocation failed.
    OutOfMemory,
}

impl fmt::Display for ListRefusal {
    ghost use Rattle.std.specs.Prelude.{Some};
    ghost use Rattle.label_list.specs.Refusal.{list_refusal_text};

    ghost output = { λ refusal. Some (list_refusal_text refusal) };

    fn fmt<W: fmt::Write>(&self, f: &mut fmt::Formatter<W>) -> fmt::Result {
        match self {
            ListRefusal::BadLine(line) => write!(f, "line {line} of the labels is no entry"),
            ListRefusal::OutOfMemory => write!(f, "out of memory"),
        }
    }
}
