//! The line at a terminal about a text that is no list of labels.

use std::fmt;

/// The number of the first line, from 1 on, that is no entry of a list of labels.
#[derive(Clone, Copy)]
pub(crate) struct BadLine(pub(crate) u64);

impl fmt::Display for BadLine {
    fn fmt<W: fmt::Write>(&self, f: &mut fmt::Formatter<W>) -> fmt::Result {
        let line = self.0;
        write!(
            f,
            "line {line} is none of `label L PLACE`, `cut PLACE` and `root ID`: see `retained --help`"
        )
    }
}
